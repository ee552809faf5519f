ghost use Rattle.std.specs.Prelude.{◌≡◌};
ghost use Rattle.sr_classes.specs.Classes.{class_of};
ghost use Rattle.sr_touch.specs.Homes.{line_home, owner_number};

use sr_buckets::PARTS;
use sr_core::Classes;
use sr_value::Owner;

fn owner_number(owner: Owner) -> u32
    ensures { result ≡ owner_number owner }
{
    match owner {
        Owner::Inst(instance) => instance,
        Owner::Proc(process) => process,
    }
}

/// The class of an operation.
pub fn class_in(classes: &Classes, op: u32) -> u32
    ensures { result ≡ class_of classes.now.of op }
{
    match classes.of.get(op as usize) {
        Some(class) => *class,
        None => 0,
    }
}

/// The part of the pending invocations of an owner that are of the class of an operation.
pub fn line_home(classes: &Classes, owner: Owner, op: u32) -> usize
    ensures { result ≡ line_home (class_of classes.now.of) owner op }
{
    let line = u64::from(owner_number(owner)) + 1 + u64::from(class_in(classes, op));
    (line % PARTS as u64) as usize
}
