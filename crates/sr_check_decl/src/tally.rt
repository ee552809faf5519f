ghost use Rattle.std.specs.Prelude.{◌≡◌, ◌+◌, length, IfOk, OnOk};
ghost use Rattle.sr_check_decl.specs.Declaring.{declare_name, standing};
ghost use Rattle.sr_check_decl.specs.Variables.{declare, variable};

use sr_check_expr::{Facts, Here, Info};
use sr_names::{Decl, Spot};
use sr_tree::Name;
use sr_types::{Static, Ty, Typed};
use sr_value::NoMemory;

/// What is declared so far outside of procs and blocks.
#[derive(Drop)]
pub struct Tally {
    pub facts: Facts,
    /// The number of enumerations among it.
    pub enumerations: u32,
}

/// Declares what stands at a spot.
pub fn declare(facts: &mut Facts, spot: Spot, info: Info) -> Result<(), NoMemory>
    ensures { OnOk result (facts.new ≡ declare facts.old spot info) }
{
    facts.infos.insert(spot, info)
}

/// Declares a name.
pub fn declare_name(facts: &mut Facts, name: &Name, info: Info) -> Result<(), NoMemory>
    ensures { OnOk result (facts.new ≡ declare_name facts.old name.now info) }
{
    declare(facts, Spot::of(name.span), info)
}

/// What a variable or a formal of a type is declared as.
pub fn variable(ty: Ty) -> Info
    ensures { result ≡ variable ty }
{
    Info::Value(Typed {
        ty,
        is_place: true,
        value: Static::Unknown,
    })
}

/// What follows stands in a component.
pub fn stand(facts: &mut Facts, component: Decl)
    ensures { facts.new ≡ standing facts.old component }
{
    facts.here = Here {
        component,
        in_guard: false,
    };
}

/// The next number; there are not more of anything than memory has room for.
pub(crate) fn next(number: u32) -> Result<u32, NoMemory>
    ensures { IfOk result (λ following. following ≡ number + 1) }
{
    number.checked_add(1).ok_or(NoMemory)
}

/// The number of items.
pub(crate) fn count_of<T>(items: &[T]) -> Result<u32, NoMemory>
    ensures { IfOk result (λ count. count ≡ length items.now) }
{
    u32::try_from(items.len()).map_err(|_| NoMemory)
}
