ghost use Rattle.std.specs.Prelude.{◌≡◌};
ghost use Rattle.sr_meaning.specs.Expressions.{leaf_meaning, owner_of};
ghost use Rattle.sr_interpreter_expr.specs.Interpreters.{Agrees, here_of, stage_of};

use crate::interpreter::Interpreter;
use crate::listening::{IsMade, IsMoment, IsNumber, ask};
use crate::scene::{HasCore, Scene};
use crate::stop::Stop;
use sr_ask::Request;
use sr_core::{Leaf, OperationOwner};
use sr_value::{Cap, Duplicate, Owner, Value};

/// The owner that an operation's capability names.
fn owner_of<C: HasCore>(scene: &Scene<C>, whose: OperationOwner) -> Owner
    ensures { result ≡ owner_of whose (here_of C.core_of scene.now) }
{
    match whose {
        OperationOwner::Mine => Owner::Inst(scene.start.instance),
        OperationOwner::Imported(at) => match scene.start.homes.get(at as usize) {
            Some(instance) => Owner::Inst(*instance),
            None => Owner::Inst(0),
        },
        OperationOwner::Process => Owner::Proc(scene.start.process),
    }
}

/// What an expression without operands asks, and what it gives.
pub fn leaf_value<C: HasCore>(
    scene: &Scene<C>,
    interpreter: &mut Interpreter,
    leaf: &Leaf,
) -> Result<Value, Stop>
    ensures { Agrees (leaf_meaning leaf.now (here_of C.core_of scene.now) (stage_of interpreter.old)) result (stage_of interpreter.new) }
{
    match leaf {
        Leaf::Constant(value) => Ok(value.copy(scene.alloc)?),
        Leaf::Operation { whose, op } => Ok(Value::Capa(Cap::Op {
            owner: owner_of(scene, *whose),
            op: *op,
        })),
        Leaf::MyResource => Ok(Value::Capa(Cap::Res(scene.start.instance))),
        Leaf::MyMachine => Ok(Value::Capa(Cap::Vm(scene.start.vm))),
        Leaf::Count { op } => {
            let count = ask(scene, interpreter, &IsNumber, Request::Count { op: *op })?;
            Ok(Value::Int(count))
        }
        Leaf::MakeMachine => {
            let name = ask(scene, interpreter, &IsMade, Request::MakeVm)?;
            Ok(Value::Capa(Cap::Vm(name)))
        }
        Leaf::Moment => {
            let now = ask(scene, interpreter, &IsMoment, Request::Age)?;
            Ok(Value::Int(now))
        }
    }
}
