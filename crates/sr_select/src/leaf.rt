ghost use Rattle.std.specs.Prelude.{◌≡◌, [], ◌∷◌, ◌++◌, OnOk};
ghost use Rattle.sr_select.specs.Guards.{guard_count, guard_leaf, guard_load, guard_owner, guard_shared, home_seen};
ghost use Rattle.sr_select.specs.Looks.{Sees};
ghost use Rattle.sr_select.specs.Sights.{guarding_of};

use crate::formals::load_own;
use crate::names::{block_of, home_in, machine_in};
use crate::reads::Reads;
use crate::sight::{Scene, Sight};
use sr_ask::Seen;
use sr_core::{Leaf, OperationOwner, Root};
use sr_value::{Cap, Duplicate, Fault, NoMemory, Owner, Row, Sel, Value, ValueFail};
use std::alloc::Global;

/// The owner that an operation's capability names.
fn owner_of(scene: &Scene, whose: OperationOwner) -> Result<Owner, Fault>
    ensures { result ≡ guard_owner scene.now.me (home_seen scene.now.names.now scene.now.env.now) whose }
{
    match whose {
        OperationOwner::Mine => Ok(Owner::Inst(scene.me.instance)),
        OperationOwner::Imported(import) => match home_in(scene.names, scene.env, import) {
            Some(instance) => Ok(Owner::Inst(instance)),
            None => Err(Fault::Range),
        },
        OperationOwner::Process => Ok(Owner::Proc(scene.me.process)),
    }
}

/// How many invocations of an operation are pending, which is written down.
fn count_pending<R: Reads>(reads: &R, seen: &mut Row<Seen>, op: u32) -> Result<Value, ValueFail>
    ensures { Sees (guard_count (R.reading reads.now) op seen.old) result seen.new }
{
    let count = reads.count(op);
    seen.push(Seen::Pending { op, count })?;
    match i32::try_from(count) {
        Ok(number) => Ok(Value::Int(number)),
        Err(_) => Err(ValueFail::Fault(Fault::Overflow)),
    }
}

/// The value of a leaf.
pub fn leaf_value<R: Reads>(
    sight: &Sight,
    reads: &R,
    seen: &mut Row<Seen>,
    leaf: &Leaf,
) -> Result<Value, ValueFail>
    ensures { Sees (guard_leaf leaf.now (guarding_of (R.reading reads.now) sight.now) seen.old) result seen.new }
{
    let scene = &sight.scene;
    match leaf {
        Leaf::Constant(value) => Ok(value.copy(scene.alloc)?),
        Leaf::Operation { whose, op } => match owner_of(scene, *whose) {
            Ok(owner) => Ok(Value::Capa(Cap::Op { owner, op: *op })),
            Err(fault) => Err(ValueFail::Fault(fault)),
        },
        Leaf::MyResource => Ok(Value::Capa(Cap::Res(scene.me.instance))),
        Leaf::MyMachine => match machine_in(scene.names, scene.env) {
            Some(machine) => Ok(Value::Capa(Cap::Vm(machine))),
            None => Err(ValueFail::Fault(Fault::Range)),
        },
        Leaf::Count { op } => count_pending(reads, seen, *op),
        Leaf::MakeMachine => Err(ValueFail::Fault(Fault::Range)),
        Leaf::Moment => Err(ValueFail::Fault(Fault::Range)),
    }
}

/// Writes down what a cell holds.
fn note_cell(
    alloc: Global,
    seen: &mut Row<Seen>,
    block: u32,
    var: u32,
    path: Row<Sel>,
    value: &Value,
) -> Result<(), NoMemory>
    ensures { OnOk result (seen.new ≡ seen.old ++ Seen.Cell block var path value.now ∷ []) }
{
    let value = value.copy(alloc)?;
    seen.push(Seen::Cell {
        block,
        var,
        path,
        value,
    })
}

/// The value of a part of a shared variable, which is written down.
fn load_shared<R: Reads>(
    alloc: Global,
    reads: &R,
    seen: &mut Row<Seen>,
    block: u32,
    var: u32,
    path: Row<Sel>,
) -> Result<Value, ValueFail>
    ensures { Sees (guard_shared (R.reading reads.now) var path block seen.old) result seen.new }
{
    match reads.load(block, var, path.as_slice()) {
        Ok(value) => match note_cell(alloc, seen, block, var, path, &value) {
            Ok(()) => Ok(value),
            Err(_) => Err(ValueFail::NoMemory),
        },
        Err(fail) => Err(fail),
    }
}

/// The value at a place whose path is there.
pub fn load_at<R: Reads>(
    sight: &Sight,
    reads: &R,
    seen: &mut Row<Seen>,
    root: Root,
    path: Row<Sel>,
) -> Result<Value, ValueFail>
    ensures { Sees (guard_load root path (guarding_of (R.reading reads.now) sight.now) seen.old) result seen.new }
{
    let scene = &sight.scene;
    match root {
        Root::Own(var) => load_own(sight, var, path.as_slice()),
        Root::Shared { home, var } => match block_of(scene.me, scene.names, scene.env, home) {
            Ok(block) => load_shared(scene.alloc, reads, seen, block, var, path),
            Err(fault) => Err(ValueFail::Fault(fault)),
        },
    }
}
