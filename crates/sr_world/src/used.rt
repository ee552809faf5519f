ghost use Rattle.std.specs.Prelude.{◌≡◌, ◌↔◌, ◌<◌, ◌++◌, ◌∷◌, [], IfNone, IfSome, IsTrue, OnErr, OnOk};
ghost use Rattle.std.specs.List.{AllPairs, Contains};
ghost use Rattle.sr_world.specs.Names.{AreAllUsed, IsGreatest, IsLeastUnused, names_after as later_names};
ghost use Rattle.sr_world.specs.Parts.{AreUsedBelow, greater as greater_of, next_after as next_of};

use sr_value::NoMemory;
use std::alloc::Global;
use std::marker::Model;

/// The numbers that were given out.
#[derive(Drop)]
pub struct Used {
    names: Vec<u32>,
    /// Each number from 1 below this one was given out.
    next: u32,
    /// The greatest that was given out, or 0.
    greatest: u32,
}

impl Model for Used {
    ghost use Rattle.std.specs.Prelude.{◌-◌, ℕ, List, length, refl};
    ghost use Rattle.std.specs.Coded.{code_by, coded×, coded_list, coded_ℕ};
    ghost use Rattle.std.specs.Vec.{vec_capacity};
    ghost use Rattle.sr_world.specs.Parts.{Bounds, Numbers};

    ghost Value = { Numbers };

    ghost coded = { code_by (List ℕ × ℕ) (coded× (coded_list coded_ℕ) coded_ℕ)
        (λ n. (n.names, n.room)) (λ p. record { names = p.0; room = p.1 }) (λ _. refl) };

    ghost view = { λ used. record { names = used.names.items; room = vec_capacity used.names - length used.names.items } };

    ghost invariant = { λ used. Bounds used.names.items used.next used.greatest };
}

/// The number below which each was given out, once another was.
fn next_after(next: u32, name: u32) -> u32
    ensures { result ≡ next_of next name }
{
    if next == name && name < u32::MAX {
        name + 1
    } else {
        next
    }
}

/// The greater of two numbers.
fn greater(greatest: u32, name: u32) -> u32
    ensures { result ≡ greater_of greatest name }
{
    if greatest < name { name } else { greatest }
}

/// The least number that isn't among these, where each below `next` is.
#[tactic(auto, using(crate::proofs::UsedLemmas::is_least))]
fn first_unused(names: &[u32], next: u32) -> Option<u32>
    requires { AreUsedBelow names.now next }
    ensures some { IfSome result (IsLeastUnused names.now) }
    ensures none { IfNone result (AreAllUsed names.now) }
{
    for name in next..u32::MAX {
        if !names.contains(&name) {
            return Some(name);
        }
    }
    if names.contains(&u32::MAX) {
        None
    } else {
        Some(u32::MAX)
    }
}

/// The numbers that stand after one.
fn names_after(names: &[u32], name: u32) -> &[u32]
    ensures { result.now ≡ later_names names.now name }
{
    let mut rest = names;
    while let [first, others @ ..] = rest {
        if *first == name {
            return others;
        }
        rest = others;
    }
    rest
}

impl Used {
    /// No numbers. It takes no memory.
    pub fn new(alloc: Global) -> Self
        ensures { result.names ≡ [] }
    {
        Used {
            names: Vec::new(alloc),
            next: 1,
            greatest: 0,
        }
    }

    /// Makes room for one more number.
    pub fn reserve(&mut self) -> Result<(), NoMemory>
        ensures room { OnOk result (0 < self.new.room) }
        ensures names { self.new.names ≡ self.old.names }
    {
        self.names.try_reserve(1)?;
        Ok(())
    }

    /// Adds a number after all others. It takes no memory.
    pub fn push(&mut self, name: u32)
        requires { 0 < self.old.room }
        ensures { self.new.names ≡ self.old.names ++ name ∷ [] }
    {
        self.names.push_reserved(name);
        self.next = next_after(self.next, name);
        self.greatest = greater(self.greatest, name);
    }

    /// The least number from 1 on that wasn't given out; none where each was. Where the numbers are given
    /// out in their order it looks at none of them.
    pub fn least_unused(&self) -> Option<u32>
        ensures some { IfSome result (IsLeastUnused self.now.names) }
        ensures none { IfNone result (AreAllUsed self.now.names) }
    {
        if self.greatest < self.next {
            return Some(self.next);
        }
        first_unused(self.names.as_slice(), self.next)
    }

    /// The greatest number that was given out, or 0.
    pub fn greatest(&self) -> u32
        ensures { IsGreatest self.now.names result }
    {
        self.greatest
    }

    /// Whether a number was given out, where they ascend. The time grows with the logarithm of their count.
    pub fn contains(&self, name: u32) -> bool
        ensures { AllPairs (λ a b. a < b) self.now.names → (IsTrue result ↔ Contains self.now.names name) }
    {
        self.names.as_slice().binary_search(&name).is_ok()
    }

    /// What was given out after a number.
    pub fn after(&self, name: u32) -> &[u32]
        ensures { result.now ≡ later_names self.now.names name }
    {
        names_after(self.names.as_slice(), name)
    }
}
