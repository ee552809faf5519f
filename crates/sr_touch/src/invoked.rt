//! The parts that an invocation touches, and an answer.
ghost use Rattle.std.specs.Prelude.{◌≡◌, IfSome, Some, option_map, slice_get};
ghost use Rattle.sr_classes.specs.Classes.{class_of};
ghost use Rattle.sr_touch.specs.Orders.{IsAscending, all_added, parts_in};
ghost use Rattle.sr_touch.specs.Touched.{arrival_part, caller_parts, invoked_parts, is_wide_arrival, is_wide_target, operation_parts, owner_parts};

use crate::homes::line_home;
use crate::parts::Parts;
use sr_buckets::home;
use sr_core::{Classes, Core, Operation};
use sr_value::{Cap, Owner};

/// With the part of the one that gets an answer; process 0 is nobody.
pub fn with_caller(parts: Parts, back: u32) -> Option<Parts>
    requires { IsAscending parts }
    ensures value { option_map parts_in result ≡ all_added (Some (parts_in parts)) (caller_parts back) }
    ensures ascending { IfSome result IsAscending }
{
    if back == 0 {
        Some(parts)
    } else {
        parts.with(home(back))
    }
}

fn with_owner(parts: Parts, owner: Owner) -> Option<Parts>
    requires { IsAscending parts }
    ensures value { option_map parts_in result ≡ all_added (Some (parts_in parts)) (owner_parts owner) }
    ensures ascending { IfSome result IsAscending }
{
    match owner {
        Owner::Inst(_) => Some(parts),
        Owner::Proc(process) => parts.with(home(process)),
    }
}

fn arrival_part(classes: &Classes, name: u32, owner: Owner, op: u32, operation: &Operation) -> usize
    ensures { result ≡ arrival_part (class_of classes.now.of) name owner op operation.now.proc }
{
    match operation.proc {
        Some(_) => home(name),
        None => line_home(classes, owner, op),
    }
}

fn with_operation(
    parts: Parts,
    core: &Core,
    classes: &Classes,
    name: u32,
    owner: Owner,
    op: u32,
) -> Option<Parts>
    requires { IsAscending parts }
    ensures value { option_map parts_in result ≡ all_added (Some (parts_in parts)) (operation_parts (class_of classes.now.of) name owner op (slice_get core.now.operations op)) }
    ensures ascending { IfSome result IsAscending }
{
    match core.operations.get(op as usize) {
        None => Some(parts),
        Some(operation) => {
            let parts = with_owner(parts, owner)?;
            parts.with(arrival_part(classes, name, owner, op, operation))
        }
    }
}

/// With the parts that an invocation touches which is answered to `back`, in a step of this number.
pub fn with_invoked(
    parts: Parts,
    core: &Core,
    classes: &Classes,
    name: u32,
    back: u32,
    target: Cap,
) -> Option<Parts>
    requires { IsAscending parts }
    ensures value { option_map parts_in result ≡ all_added (Some (parts_in parts)) (invoked_parts core.now (class_of classes.now.of) name back target) }
    ensures ascending { IfSome result IsAscending }
{
    match target {
        Cap::Noop => with_caller(parts, back),
        Cap::Op { owner, op } => with_operation(parts, core, classes, name, owner, op),
        _ => Some(parts),
    }
}

/// Whether a process would begin for an operation of another process.
fn is_wide_arrival(core: &Core, owner: Owner, op: u32) -> bool
    ensures { result ≡ is_wide_arrival owner (slice_get core.now.operations op) }
{
    match owner {
        Owner::Inst(_) => false,
        Owner::Proc(_) => match core.operations.get(op as usize) {
            Some(operation) => operation.proc.is_some(),
            None => false,
        },
    }
}

/// Whether an invocation of this capability is wide.
pub fn is_wide_target(core: &Core, target: Cap) -> bool
    ensures { result ≡ is_wide_target core.now target }
{
    match target {
        Cap::Op { owner, op } => is_wide_arrival(core, owner, op),
        _ => false,
    }
}
