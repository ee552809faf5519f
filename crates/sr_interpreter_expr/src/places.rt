ghost use Rattle.std.specs.Prelude.{◌≡◌};
ghost use Rattle.sr_ask.specs.Behaviors.{Came};
ghost use Rattle.sr_value.specs.Parts.{part_of, with_ok};
ghost use Rattle.sr_meaning.specs.Here.{settle};
ghost use Rattle.sr_meaning.specs.Places.{block_of, spot_of, own_load, own_store, load_place, store_place};
ghost use Rattle.sr_interpreter_expr.specs.Interpreters.{Agrees, here_of, stage_of};
ghost use Rattle.sr_ask.specs.Places.{own_at, own_after, declare_own};

use crate::interpreter::Interpreter;
use crate::listening::{IsDone, IsGot, ask};
use crate::scene::{HasCore, Scene};
use crate::settle::failed;
use crate::stop::Stop;
use sr_ask::{Located, Own, Request, Spot};
use sr_core::{Home, Root};
use sr_value::{Duplicate, Fault, Row, Sel, Value, ValueFail, loaded, part_of, stored};

/// The instance whose shared variables are meant.
fn block_of<C: HasCore>(scene: &Scene<C>, home: Home) -> u32
    ensures { result ≡ block_of home (here_of C.core_of scene.now) }
{
    match home {
        Home::Mine => scene.start.instance,
        Home::Imported(at) => match scene.start.homes.get(at as usize) {
            Some(instance) => *instance,
            None => 0,
        },
    }
}

/// The variable that a place is in.
pub fn spot_of<C: HasCore>(scene: &Scene<C>, root: Root) -> Spot
    ensures { result ≡ spot_of root (here_of C.core_of scene.now) }
{
    match root {
        Root::Own(var) => Spot::Own(var),
        Root::Shared { home, var } => Spot::Shared {
            block: block_of(scene, home),
            var,
        },
    }
}

/// What a part of an own variable holds.
fn own_value<C: HasCore>(
    scene: &Scene<C>,
    interpreter: &Interpreter,
    var: u32,
    path: &Row<Sel>,
) -> Result<Value, Stop>
    ensures { Agrees (own_load var path.now (here_of C.core_of scene.now) (stage_of interpreter.now)) result (stage_of interpreter.now) }
{
    match interpreter.own.get(var as usize) {
        Some(Some(own)) => match loaded(scene.alloc, &own.value, path.as_slice()) {
            Ok(value) => Ok(value),
            Err(ValueFail::Fault(fault)) => failed(scene, interpreter, fault),
            Err(ValueFail::NoMemory) => Err(Stop::NoMemory),
        },
        _ => failed(scene, interpreter, Fault::Early),
    }
}

/// The value at a place. A shared place is loaded by one request, with its whole path.
pub fn load<C: HasCore>(
    scene: &Scene<C>,
    interpreter: &mut Interpreter,
    place: &Located,
) -> Result<Value, Stop>
    ensures { Agrees (load_place place.now (here_of C.core_of scene.now) (stage_of interpreter.old)) result (stage_of interpreter.new) }
{
    match place.spot {
        Spot::Own(var) => own_value(scene, interpreter, var, &place.path),
        Spot::Shared { block, var } => {
            let request = Request::Load {
                block,
                var,
                path: place.path.copy(scene.alloc)?,
            };
            ask(scene, interpreter, &IsGot, request)
        }
    }
}

/// Replaces the variable with this number.
pub fn put_own(interpreter: &mut Interpreter, var: u32, own: Own)
    ensures { declare_own var own (stage_of interpreter.old) ≡ Came tt (stage_of interpreter.new) }
{
    if (var as usize) < interpreter.own.len() {
        let _ = interpreter.own.replace(var as usize, Some(own));
    }
}

/// An own variable after a store, or the fault in its place.
fn own_after<C: HasCore>(
    scene: &Scene<C>,
    interpreter: &Interpreter,
    var: u32,
    path: &Row<Sel>,
    value: &Value,
) -> Result<Own, Stop>
    ensures { Agrees (settle (with_ok (own_at interpreter.now.own var) (λ own. own_after own path.now value.now)) (here_of C.core_of scene.now) (stage_of interpreter.now)) result (stage_of interpreter.now) }
{
    match interpreter.own.get(var as usize) {
        Some(Some(own)) => match stored(
            scene.alloc,
            &own.shape,
            &own.value,
            path.as_slice(),
            value,
        ) {
            Ok(held) => Ok(Own {
                shape: own.shape.copy(scene.alloc)?,
                value: held,
            }),
            Err(ValueFail::Fault(fault)) => failed(scene, interpreter, fault),
            Err(ValueFail::NoMemory) => Err(Stop::NoMemory),
        },
        _ => failed(scene, interpreter, Fault::Early),
    }
}

/// Stores in a part of an own variable.
fn store_own<C: HasCore>(
    scene: &Scene<C>,
    interpreter: &mut Interpreter,
    var: u32,
    path: &Row<Sel>,
    value: &Value,
) -> Result<(), Stop>
    ensures { Agrees (own_store var path.now value.now (here_of C.core_of scene.now) (stage_of interpreter.old)) result (stage_of interpreter.new) }
{
    let own = own_after(scene, interpreter, var, path, value)?;
    put_own(interpreter, var, own);
    Ok(())
}

/// Stores at a place.
pub fn store<C: HasCore>(
    scene: &Scene<C>,
    interpreter: &mut Interpreter,
    place: &Located,
    value: Value,
) -> Result<(), Stop>
    ensures { Agrees (store_place place.now value (here_of C.core_of scene.now) (stage_of interpreter.old)) result (stage_of interpreter.new) }
{
    match place.spot {
        Spot::Own(var) => store_own(scene, interpreter, var, &place.path, &value),
        Spot::Shared { block, var } => {
            let request = Request::Store {
                block,
                var,
                path: place.path.copy(scene.alloc)?,
                value,
            };
            ask(scene, interpreter, &IsDone, request)
        }
    }
}

/// The part of a value that one step selects.
pub fn part<C: HasCore>(
    scene: &Scene<C>,
    interpreter: &Interpreter,
    value: &Value,
    step: Sel,
) -> Result<Value, Stop>
    ensures { Agrees (settle (part_of value.now step) (here_of C.core_of scene.now) (stage_of interpreter.now)) result (stage_of interpreter.now) }
{
    match part_of(scene.alloc, value, step) {
        Ok(part) => Ok(part),
        Err(ValueFail::Fault(fault)) => failed(scene, interpreter, fault),
        Err(ValueFail::NoMemory) => Err(Stop::NoMemory),
    }
}
