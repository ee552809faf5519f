ghost use Rattle.std.specs.Prelude.{◌≡◌};
ghost use Rattle.sr_meaning.specs.Expressions.{created, ensured, needs_of};
ghost use Rattle.sr_interpreter_expr.specs.Interpreters.{Agrees, here_of, stage_of};

use crate::interpreter::Interpreter;
use crate::invoke::reply_to;
use crate::listening::{IsMade, IsReady, ask};
use crate::scene::{HasCore, Scene};
use crate::stop::Stop;
use sr_ask::Request;
use sr_core::Core;
use sr_frame::instance_in;
use sr_value::{Cap, Row, Value};

/// Each global is asked for until it is ready.
pub fn ensure<C: HasCore>(
    scene: &Scene<C>,
    interpreter: &mut Interpreter,
    globals: &[u32],
    vm: Cap,
) -> Result<(), Stop>
    ensures { Agrees (ensured globals.now vm (here_of C.core_of scene.now) (stage_of interpreter.old)) result (stage_of interpreter.new) }
{
    for global in globals {
        ask(
            scene,
            interpreter,
            &IsReady,
            Request::EnsureGlobal {
                global: *global,
                vm,
            },
        )?;
    }
    Ok(())
}

/// The globals that a component needs, each after those that it imports.
pub fn needs(core: &Core, component: u32) -> &[u32]
    ensures { result.now ≡ needs_of core.now component }
{
    match core.components.get(component as usize) {
        Some(found) => found.needs.as_slice(),
        None => &[],
    }
}

/// Makes an instance, and waits for its reply.
pub fn create<C: HasCore>(
    scene: &Scene<C>,
    interpreter: &mut Interpreter,
    resource: u32,
    args: Row<Value>,
    vm: Cap,
) -> Result<Value, Stop>
    ensures { Agrees (created resource args vm (here_of C.core_of scene.now) (stage_of interpreter.old)) result (stage_of interpreter.new) }
{
    ensure(
        scene,
        interpreter,
        needs(scene.program.core(), resource),
        vm,
    )?;
    let request = Request::Create { resource, args, vm };
    let name = ask(scene, interpreter, &IsMade, request)?;
    let reply = reply_to(scene, interpreter, name)?;
    Ok(instance_in(reply))
}
