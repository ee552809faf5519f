//! How many parts the shapes of declared types have, found before they are made: a walk over a shape goes to each
//! part as often as the shape has it, though the memory of shapes shares them.
#![tactic(auto)]

use sr_check_expr::{Facts, meant_by};
use sr_names::Spot;
use sr_tables::{SpotMap, deciding};
use sr_tree::{Decl, Formal, QualifiedName, TypeTree};
use sr_value::NoMemory;
use std::alloc::Global;

/// So many parts the shapes of all declared types have together at most.
const MOST_PARTS: u64 = 67_108_864;

/// So many levels a shape has at most: a walk over it fits into 8 MiB of stack.
const MOST_LEVELS: u64 = 2_048;

/// How large the shape of a type is.
#[derive(Clone, Copy)]
pub struct Weight {
    parts: u64,
    levels: u64,
}

/// The weight of a shape without parts of its own.
const PLAIN: Weight = Weight {
    parts: 1,
    levels: 1,
};

/// The weight of the shape that stands for one of too many cells.
pub const STAND_IN: Weight = Weight {
    parts: 4,
    levels: 3,
};

/// The weight of no shapes.
const NOTHING: Weight = Weight {
    parts: 0,
    levels: 0,
};

/// The weight of a record or an array of these parts.
fn around(parts: Weight) -> Weight {
    Weight {
        parts: parts.parts.saturating_add(1),
        levels: parts.levels.saturating_add(1),
    }
}

/// The weight of shapes that stand beside one another.
fn together(some: Weight, others: Weight) -> Weight {
    Weight {
        parts: some.parts.saturating_add(others.parts),
        levels: some.levels.max(others.levels),
    }
}

/// The weights of the types that are declared so far.
#[derive(Drop)]
pub struct Weights {
    types: SpotMap<Weight>,
    /// How many parts all shapes had together that were weighed.
    parts: u64,
}

impl Weights {
    pub fn new(alloc: Global) -> Weights {
        Weights {
            types: SpotMap::new(alloc),
            parts: 0,
        }
    }

    /// The weight of a declared type.
    fn at(&self, spot: Spot) -> Weight {
        match self.types.get(spot) {
            Some(weight) => *weight,
            None => PLAIN,
        }
    }

    /// The weight of a type as it is written. Out of memory where its shape, or all shapes together, are too large to
    /// walk over.
    pub fn weigh(&mut self, tree: &TypeTree, facts: &Facts) -> Result<Weight, NoMemory> {
        let weight = type_weight(tree, facts, self);
        self.parts = self.parts.saturating_add(weight.parts);
        if self.parts > MOST_PARTS || weight.levels > MOST_LEVELS {
            return Err(NoMemory);
        }
        Ok(weight)
    }

    /// Puts in the weight of a declared type.
    pub fn insert(&mut self, spot: Spot, weight: Weight) -> Result<(), NoMemory> {
        self.types.insert(spot, weight)
    }
}

fn named_weight(name: &QualifiedName, facts: &Facts, weights: &Weights) -> Weight {
    weights.at(meant_by(facts, deciding(name)))
}

/// The weight of a declared name, with or without dims of its own.
fn decl_weight(decl: &Decl, item: Weight) -> Weight {
    match &decl.dims {
        None => item,
        Some(_) => around(item),
    }
}

/// The weight of what is declared with items of one weight.
fn decls_weight(decls: &[Decl], item: Weight) -> Weight {
    let mut all = NOTHING;
    for decl in decls {
        all = together(all, decl_weight(decl, item));
    }
    all
}

#[cycle(type_weights)]
fn fields_weight(fields: &[Formal], facts: &Facts, weights: &Weights) -> Weight {
    let mut all = NOTHING;
    for formal in fields {
        let item = type_weight(&formal.ty, facts, weights);
        all = together(all, decls_weight(formal.decls.as_slice(), item));
    }
    all
}

/// The weight of a type as it is written.
#[cycle(type_weights)]
fn type_weight(tree: &TypeTree, facts: &Facts, weights: &Weights) -> Weight {
    match tree {
        TypeTree::Rec { fields, .. } => around(fields_weight(fields.as_slice(), facts, weights)),
        TypeTree::Array { item, .. } => around(type_weight(item.get(), facts, weights)),
        TypeTree::Named { name, .. } => named_weight(name, facts, weights),
        _ => PLAIN,
    }
}
