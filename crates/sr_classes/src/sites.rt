//! The classes that the `in` statements of a program make.
ghost use Rattle.std.specs.Prelude.{◌≡◌, ◌<◌, ◌^◌, ℕ, All, fold, map, length, IfOk, OnOk, slice_index_or};
ghost use Rattle.sr_classes.specs.Classes.{AreClasses, groups_of, named_by};
ghost use Rattle.sr_classes.specs.Joins.{IsForest, Stands, StandsOn, group_joined};

use crate::forest::{first_of, join};
use sr_core::{Arm, Classes, Core, Site};
use sr_value::{NoMemory, Row};
use std::alloc::Global;

/// The class of each operation. Two operations are in one class where one `in` has arms for both, or where each is in
/// the class of a third. Every other operation is in a class of its own. A class has the number of its first operation.
/// An arm that names no operation joins nothing; a well-formed core has none.
pub fn partition(alloc: Global, core: &Core) -> Result<Classes, NoMemory>
    ensures { IfOk result (λ classes. AreClasses (groups_of core.now) (length core.now.operations) classes.of) }
{
    if core.operations.len() > u32::MAX as usize {
        return Err(NoMemory);
    }
    let mut parents = alone(alloc, core.operations.len() as u32)?;
    join_sites(alloc, &mut parents, core.sites.as_slice())?;
    let of = settled(alloc, parents)?;
    Ok(Classes { of })
}

/// Operations that are all in a class of their own.
fn alone(alloc: Global, count: u32) -> Result<Row<u32>, NoMemory>
    ensures count { IfOk result (λ parents. length parents ≡ count) }
    ensures own { IfOk result (λ parents. (op : ℕ) → op < count → slice_index_or parents op 0 ≡ op) }
{
    let mut parents = Row::new(alloc);
    for op in 0..count {
        parents.push(op)?;
    }
    Ok(parents)
}

/// The operations below this number that an `in` has arms for.
fn named_by(alloc: Global, arms: &[Arm], count: usize) -> Result<Row<u32>, NoMemory>
    ensures value { IfOk result (λ group. group ≡ named_by count arms.now) }
    ensures named { IfOk result (λ group. All (λ op. op < count) group) }
{
    let mut group = Row::new(alloc);
    for arm in arms {
        if (arm.op as usize) < count {
            group.push(arm.op)?;
        }
    }
    Ok(group)
}

/// Makes the classes of the operations of each `in` one.
fn join_sites(alloc: Global, parents: &mut Row<u32>, sites: &[Site]) -> Result<(), NoMemory>
    requires forest { IsForest parents.old }
    ensures length { OnOk result (length parents.new ≡ length parents.old) }
    ensures forest { OnOk result (IsForest parents.new) }
    ensures joined { OnOk result (StandsOn parents.old parents.new (λ of. fold group_joined of (map (λ site. named_by (length parents.old) site.arms) sites.now))) }
{
    let count = parents.len();
    for site in sites {
        let group = named_by(alloc, site.arms.as_slice(), count)?;
        join_group(parents, group.as_slice());
    }
    Ok(())
}

/// Makes the classes of the operations of one `in` one.
fn join_group(parents: &mut Row<u32>, group: &[u32])
    requires named { All (λ op. op < length parents.old) group.now }
    requires forest { IsForest parents.old }
    ensures length { length parents.new ≡ length parents.old }
    ensures forest { IsForest parents.new }
    ensures joined { StandsOn parents.old parents.new (λ of. group_joined of group.now) }
{
    if let [first, others @ ..] = group {
        for other in others {
            join(parents, *first, *other);
        }
    }
}

/// The first operation of the class of each.
fn settled(alloc: Global, parents: Row<u32>) -> Result<Row<u32>, NoMemory>
    requires few { length parents < 2 ^ 32 }
    requires forest { IsForest parents }
    ensures each { IfOk result (λ classes. length classes ≡ length parents) }
    ensures firsts { IfOk result (λ classes. (of : ℕ → ℕ) → Stands of parents → (op : ℕ) → op < length parents → slice_index_or classes op 0 ≡ of op) }
{
    let mut parents = parents;
    let mut classes = Row::new(alloc);
    for op in 0..parents.len() as u32 {
        let first = first_of(&mut parents, op);
        classes.push(first)?;
    }
    Ok(classes)
}
