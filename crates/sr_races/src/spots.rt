ghost use Rattle.std.specs.Prelude.{◌≡◌, ◌++◌, ◌<◌, [], IfOk, OnOk, map};
ghost use Rattle.sr_races.specs.Origins.{one_if};
ghost use Rattle.sr_races.specs.Spots.{first_key as first_key_of, key_after as key_after_of, keys_on, last_key, looked_at as looked_at_of, looked_with, mixed as mixed_of, noted_at as noted_at_of, spot_of as spot_of_key};

use crate::access::Access;
use sr_value::{NoMemory, Row, Sel};
use std::alloc::Global;

/// It spreads keys over the spots.
const SPREAD: u32 = 1_000_003;

#[tactic(auto, unfolding(crate::specs::Spots::mixed))]
fn mixed(key: u32, number: u32) -> u32
    ensures { result ≡ mixed_of key number }
{
    key.wrapping_mul(SPREAD).wrapping_add(number)
}

#[tactic(auto, unfolding(crate::specs::Spots::key_after))]
fn key_after(key: u32, sel: &Sel) -> u32
    ensures { result ≡ key_after_of key sel.now }
{
    match *sel {
        Sel::At(index) => mixed(key, index.cast_unsigned()),
        Sel::At2(index, other) => mixed(mixed(key, index.cast_unsigned()), other.cast_unsigned()),
        Sel::Field(number) => mixed(key, number),
    }
}

fn first_key(access: &Access) -> u32
    ensures { result ≡ first_key_of access.now }
{
    mixed(access.block, access.var)
}

fn bit(passes: bool) -> u32
    ensures { result ≡ one_if passes }
{
    if passes { 1 } else { 0 }
}

/// A spot, of so many, for what is read or written in the part of this key, or there and below it.
#[tactic(auto, unfolding(crate::specs::Spots::spot_of))]
fn spot_of(count: u32, below: bool, writes: bool, key: u32) -> u32
    requires { 0 < count }
    ensures { result ≡ spot_of_key count below writes key }
{
    mixed(mixed(key, bit(below)), bit(writes)) % count
}

/// Adds the spots of the parts that a way leads through before its end, and hands out the key of its end.
fn push_on(
    count: u32,
    below: bool,
    writes: bool,
    key: u32,
    path: &[Sel],
    spots: &mut Row<u32>,
) -> Result<u32, NoMemory>
    requires { 0 < count }
    ensures last { IfOk result (λ last. last ≡ last_key key path.now) }
    ensures spots { OnOk result (spots.new ≡ spots.old ++ map (spot_of_key count below writes) (keys_on key path.now)) }
{
    let mut last = key;
    for sel in path {
        spots.push(spot_of(count, below, writes, last))?;
        last = key_after(last, sel);
    }
    Ok(last)
}

/// The spots, of so many, at which an access is noted.
pub(crate) fn noted_at(alloc: Global, count: u32, access: &Access) -> Result<Row<u32>, NoMemory>
    requires { 0 < count }
    ensures { IfOk result (λ spots. spots ≡ noted_at_of count access.now) }
{
    let mut spots = Row::new(alloc);
    push_noted(count, access, &mut spots)?;
    Ok(spots)
}

fn push_noted(count: u32, access: &Access, spots: &mut Row<u32>) -> Result<(), NoMemory>
    requires some { 0 < count }
    requires none { spots.old ≡ [] }
    ensures { OnOk result (spots.new ≡ noted_at_of count access.now) }
{
    let key = first_key(access);
    let path = access.path.as_slice();
    let last = push_on(count, true, access.writes, key, path, spots)?;
    spots.push(spot_of(count, true, access.writes, last))?;
    spots.push(spot_of(count, false, access.writes, last))
}

/// The spots, of so many, at which accesses are looked for that conflict with one.
pub(crate) fn looked_at(alloc: Global, count: u32, access: &Access) -> Result<Row<u32>, NoMemory>
    requires { 0 < count }
    ensures { IfOk result (λ spots. spots ≡ looked_at_of count access.now) }
{
    let mut spots = Row::new(alloc);
    push_looked(count, access, &mut spots)?;
    Ok(spots)
}

fn push_looked(count: u32, access: &Access, spots: &mut Row<u32>) -> Result<(), NoMemory>
    requires some { 0 < count }
    requires none { spots.old ≡ [] }
    ensures { OnOk result (spots.new ≡ looked_at_of count access.now) }
{
    push_with(count, true, access, spots)?;
    if !access.writes {
        return Ok(());
    }
    push_with(count, false, access, spots)
}

/// Adds the spots at which those are that read, or those that write.
fn push_with(
    count: u32,
    writes: bool,
    access: &Access,
    spots: &mut Row<u32>,
) -> Result<(), NoMemory>
    requires { 0 < count }
    ensures { OnOk result (spots.new ≡ spots.old ++ looked_with count writes access.now) }
{
    let key = first_key(access);
    let last = push_on(count, false, writes, key, access.path.as_slice(), spots)?;
    spots.push(spot_of(count, true, writes, last))
}
