ghost use Rattle.std.specs.Prelude.{◌≡◌, ◌<◌, [], ◌∷◌, None, Some, if◌then◌else◌};
ghost use Rattle.std.specs.Map.{lookup};
ghost use Rattle.std.specs.Option.{option_or};
ghost use Rattle.indexmap.specs.IndexMap.{Updates, insert_entry, spare};
ghost use Rattle.sr_instances.specs.Instances.{first_among};
ghost use Rattle.sr_instances.specs.Tables.{first_of, instance_in, same_spot};
ghost use Rattle.sr_instances.specs.declared.tables.Spot.{Spot};

use crate::state::State;
use indexmap::IndexMap;
use std::hash::Hash;

/// What is known of an instance beside its name.
#[derive(Clone, Copy)]
pub struct InstanceInfo {
    pub component: u32,
    pub machine: u32,
    pub state: State,
}

/// A component on a machine.
#[derive(Clone, Copy, PartialEq, Eq, Hash)]
pub struct Spot {
    pub component: u32,
    pub machine: u32,
}

/// Puts an entry into a table that has room for it.
pub fn put<K: Eq + Hash + Drop, V: Drop>(table: &mut IndexMap<K, V>, key: K, value: V)
    requires { 0 < spare table.old }
    ensures entries { table.new.entries ≡ insert_entry K.eq table.old.entries key value }
    ensures updates { Updates K.eq table.old table.new key (Some value) }
{
    let _ = table.insert(key, value);
}

/// Notes an instance as the first of its component on its machine, unless there is one.
pub fn note_first(globals: &mut IndexMap<Spot, u32>, spot: Spot, name: u32)
    requires { 0 < spare globals.old }
    ensures { (q : Spot) → lookup (same_spot q) globals.new.entries ≡ first_of (lookup (same_spot q) globals.old.entries) (if same_spot q spot then Some name else None) }
{
    if !globals.contains_key(&spot) {
        put(globals, spot, name);
    }
}

/// Notes an instance and its state, where it is the first of a component.
pub fn note_first_of(
    first: &mut Option<(u32, State)>,
    name: u32,
    info: InstanceInfo,
    component: usize,
)
    ensures { first.new ≡ option_or first.old (first_among component (instance_in (name, info) ∷ [])) }
{
    if first.is_none() && info.component as usize == component {
        *first = Some((name, info.state));
    }
}
