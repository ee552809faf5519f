ghost use Rattle.sr_value.specs.Operators.{value_of, value_of_one};
ghost use Rattle.sr_meaning.specs.Here.{fail, settle};
ghost use Rattle.sr_core.specs.Values.{truth_of, number_of, cap_of, member_of, count_of};
ghost use Rattle.sr_interpreter_expr.specs.Interpreters.{Agrees, here_of, stage_of};

use crate::interpreter::Interpreter;
use crate::scene::{HasCore, Scene};
use crate::stop::Stop;
use sr_ask::{Ask, Asks, Request};
use sr_value::{Cap, Fault, Operator, Owner, Value, ValueFail, arith, unary};

/// A fault that is found without the machine: the process asks `Fail`, for good.
pub fn failed<C: HasCore, T>(
    scene: &Scene<C>,
    interpreter: &Interpreter,
    fault: Fault,
) -> Result<T, Stop>
    ensures { Agrees (fail fault (here_of C.core_of scene.now) (stage_of interpreter.now)) result (stage_of interpreter.now) }
{
    Err(Stop::Asks(Asks::Asked(Ask {
        place: scene.place,
        role: scene.start.role,
        request: Request::Fail { fault },
    })))
}

/// The value of an operator between two operands.
pub fn operated<C: HasCore>(
    scene: &Scene<C>,
    interpreter: &Interpreter,
    op: Operator,
    x: &Value,
    y: &Value,
) -> Result<Value, Stop>
    ensures { Agrees (settle (value_of op x.now y.now) (here_of C.core_of scene.now) (stage_of interpreter.now)) result (stage_of interpreter.now) }
{
    match arith(scene.alloc, op, x, y) {
        Ok(value) => Ok(value),
        Err(ValueFail::Fault(fault)) => failed(scene, interpreter, fault),
        Err(ValueFail::NoMemory) => Err(Stop::NoMemory),
    }
}

/// The value of an operator before its operand.
pub fn operated_on<C: HasCore>(
    scene: &Scene<C>,
    interpreter: &Interpreter,
    op: Operator,
    x: &Value,
) -> Result<Value, Stop>
    ensures { Agrees (settle (value_of_one op x.now) (here_of C.core_of scene.now) (stage_of interpreter.now)) result (stage_of interpreter.now) }
{
    match unary(scene.alloc, op, x) {
        Ok(value) => Ok(value),
        Err(ValueFail::Fault(fault)) => failed(scene, interpreter, fault),
        Err(ValueFail::NoMemory) => Err(Stop::NoMemory),
    }
}

/// The truth of a condition.
pub fn truth<C: HasCore>(
    scene: &Scene<C>,
    interpreter: &Interpreter,
    value: &Value,
) -> Result<bool, Stop>
    ensures { Agrees (settle (truth_of value.now) (here_of C.core_of scene.now) (stage_of interpreter.now)) result (stage_of interpreter.now) }
{
    match value.as_bool() {
        Some(truth) => Ok(truth),
        None => failed(scene, interpreter, Fault::Range),
    }
}

/// The number of a bound, a step or an index.
pub fn number<C: HasCore>(
    scene: &Scene<C>,
    interpreter: &Interpreter,
    value: &Value,
) -> Result<i32, Stop>
    ensures { Agrees (settle (number_of value.now) (here_of C.core_of scene.now) (stage_of interpreter.now)) result (stage_of interpreter.now) }
{
    match value.as_int() {
        Some(number) => Ok(number),
        None => failed(scene, interpreter, Fault::Range),
    }
}

/// The capability of an operation, an instance or a machine.
pub fn capability<C: HasCore>(
    scene: &Scene<C>,
    interpreter: &Interpreter,
    value: &Value,
) -> Result<Cap, Stop>
    ensures { Agrees (settle (cap_of value.now) (here_of C.core_of scene.now) (stage_of interpreter.now)) result (stage_of interpreter.now) }
{
    match value.as_cap() {
        Some(cap) => Ok(cap),
        None => failed(scene, interpreter, Fault::Range),
    }
}

/// `r.f`: the operation of the instance.
pub fn member<C: HasCore>(
    scene: &Scene<C>,
    interpreter: &Interpreter,
    op: u32,
    cap: Cap,
) -> Result<Value, Stop>
    ensures { Agrees (settle (member_of op cap) (here_of C.core_of scene.now) (stage_of interpreter.now)) result (stage_of interpreter.now) }
{
    match cap {
        Cap::Null => Ok(Value::Capa(Cap::Null)),
        Cap::Noop => Ok(Value::Capa(Cap::Noop)),
        Cap::Res(instance) => Ok(Value::Capa(Cap::Op {
            owner: Owner::Inst(instance),
            op,
        })),
        Cap::Op { .. } => failed(scene, interpreter, Fault::Range),
        Cap::Vm(_) => failed(scene, interpreter, Fault::Range),
    }
}

/// How often a part of a bracketed list is repeated, or a semaphore is sent to.
pub fn count<C: HasCore>(
    scene: &Scene<C>,
    interpreter: &Interpreter,
    number: i32,
) -> Result<u32, Stop>
    ensures { Agrees (settle (count_of number) (here_of C.core_of scene.now) (stage_of interpreter.now)) result (stage_of interpreter.now) }
{
    match u32::try_from(number) {
        Ok(count) => Ok(count),
        Err(_) => failed(scene, interpreter, Fault::Range),
    }
}
