ghost use Rattle.sr_meaning.specs.Statements.{cap_expr, number_expr, truth_expr, condition_meaning};
ghost use Rattle.sr_interpreter_expr.specs.Interpreters.{Agrees, here_of, stage_of};

use crate::expression::evaluate;
use crate::interpreter::Interpreter;
use crate::scene::{HasCore, Scene};
use crate::settle::{capability, number, truth};
use crate::stop::Stop;
use sr_core::Expr;
use sr_value::Cap;

/// The capability that an expression gives.
pub fn cap_of<C: HasCore>(
    scene: &Scene<C>,
    interpreter: &mut Interpreter,
    expr: &Expr,
) -> Result<Cap, Stop>
    ensures { Agrees (cap_expr expr.now (here_of C.core_of scene.now) (stage_of interpreter.old)) result (stage_of interpreter.new) }
{
    let value = evaluate(scene, interpreter, expr)?;
    capability(scene, interpreter, &value)
}

/// The number that an expression gives.
pub fn number_of<C: HasCore>(
    scene: &Scene<C>,
    interpreter: &mut Interpreter,
    expr: &Expr,
) -> Result<i32, Stop>
    ensures { Agrees (number_expr expr.now (here_of C.core_of scene.now) (stage_of interpreter.old)) result (stage_of interpreter.new) }
{
    let value = evaluate(scene, interpreter, expr)?;
    number(scene, interpreter, &value)
}

/// The truth that an expression gives.
pub fn truth_of<C: HasCore>(
    scene: &Scene<C>,
    interpreter: &mut Interpreter,
    expr: &Expr,
) -> Result<bool, Stop>
    ensures { Agrees (truth_expr expr.now (here_of C.core_of scene.now) (stage_of interpreter.old)) result (stage_of interpreter.new) }
{
    let value = evaluate(scene, interpreter, expr)?;
    truth(scene, interpreter, &value)
}

/// Whether a condition holds; where there is none, it does.
pub fn holds<C: HasCore>(
    scene: &Scene<C>,
    interpreter: &mut Interpreter,
    condition: &Option<Expr>,
) -> Result<bool, Stop>
    ensures { Agrees (condition_meaning condition.now (here_of C.core_of scene.now) (stage_of interpreter.old)) result (stage_of interpreter.new) }
{
    match condition {
        None => Ok(true),
        Some(expr) => truth_of(scene, interpreter, expr),
    }
}
