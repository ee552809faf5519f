ghost use Rattle.std.specs.Prelude.{◌≡◌, [], option_copied, OnOk};
ghost use Rattle.sr_check_expr.specs.Infos.{info_at, with_info, type_spot, name_spot};

use crate::info::Info;
use indexmap::IndexMap;
use sr_names::Spot;
use sr_value::NoMemory;
use std::alloc::Global;
use std::marker::Model;

/// What each declared name is, by the spot of its declaration.
#[derive(Drop)]
pub struct Infos {
    entries: IndexMap<Spot, Info>,
}

impl Model for Infos {
    ghost use Rattle.sr_check_expr.specs.Entries.{Entries};
    ghost use Rattle.std.specs.Coded.{codes};
    ghost use Rattle.sr_types.specs.contracts.ty.Ty as ty;
    ghost use Rattle.sr_value.specs.contracts.value.Value as value;

    ghost Value = { Entries };

    ghost coded = { Prim.hlevel (codes, ty.the_row.coded, value.the_row.coded) };

    ghost view = { λ infos. infos.entries.entries };
}

impl Infos {
    /// Of no names. It takes no memory.
    pub fn new(alloc: Global) -> Self
        ensures { result ≡ [] }
    {
        Infos {
            entries: IndexMap::new(alloc),
        }
    }

    /// What the name is that is declared at a spot.
    pub fn get(&self, spot: Spot) -> Option<&Info>
        ensures { option_copied result ≡ info_at self.now spot }
    {
        self.entries.get(&spot)
    }

    /// Puts in what the name is that is declared at a spot.
    pub fn insert(&mut self, spot: Spot, info: Info) -> Result<(), NoMemory>
        ensures { OnOk result (self.new ≡ with_info self.old spot info) }
    {
        self.entries.insert(spot, info)?;
        Ok(())
    }
}

/// The declaration of a type, as types tell it.
pub fn type_spot(spot: Spot) -> sr_types::Spot
    ensures { result ≡ type_spot spot }
{
    sr_types::Spot {
        file: spot.file,
        byte: spot.from,
    }
}

/// The declaration of a type, as names tell it.
pub fn name_spot(spot: sr_types::Spot) -> Spot
    ensures { result ≡ name_spot spot }
{
    Spot {
        file: spot.file,
        from: spot.byte,
    }
}
