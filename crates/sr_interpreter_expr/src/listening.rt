ghost use Rattle.std.specs.Prelude.{◌≡◌, Option};
ghost use Rattle.sr_ask.specs.declared.answer.Answer.{Answer};
ghost use Rattle.sr_ask.specs.Asking.{done, got, made, ready, number, moment, read_item, took};
ghost use Rattle.sr_ask.specs.Behaviors.{asking};
ghost use Rattle.sr_meaning.specs.Here.{request as ask_by};
ghost use Rattle.sr_interpreter_expr.specs.Interpreters.{Agrees, HearsAnswer, UsesNextAnswer, here_of, stage_of};

use crate::interpreter::Interpreter;
use crate::scene::{HasCore, Scene};
use crate::stop::Stop;
use sr_ask::{Answer, Ask, Asks, InputItem, Request, Taken};
use sr_frame::{done, got, made, moment, number, read_item, ready, took};
use sr_value::Value;

/// A form of answer that a request takes.
pub trait Takes<T> {
    ghost takes: { Self → Answer → Option T };

    /// What an answer gives, or `None` where it doesn't have the form.
    fn take(&self, answer: Answer) -> Option<T>
        ensures { result ≡ takes self.now answer };
}

/// `Done`.
pub struct IsDone;

impl Takes<()> for IsDone {
    ghost takes = { λ form. done };

    fn take(&self, answer: Answer) -> Option<()> {
        done(answer)
    }
}

/// `Got`, with the value.
pub struct IsGot;

impl Takes<Value> for IsGot {
    ghost takes = { λ form. got };

    fn take(&self, answer: Answer) -> Option<Value> {
        got(answer)
    }
}

/// `Made`, with the number of the new instance.
pub struct IsMade;

impl Takes<u32> for IsMade {
    ghost takes = { λ form. made };

    fn take(&self, answer: Answer) -> Option<u32> {
        made(answer)
    }
}

/// `Ready`.
pub struct IsReady;

impl Takes<()> for IsReady {
    ghost takes = { λ form. ready };

    fn take(&self, answer: Answer) -> Option<()> {
        ready(answer)
    }
}

/// `Number`.
pub struct IsNumber;

impl Takes<i32> for IsNumber {
    ghost takes = { λ form. number };

    fn take(&self, answer: Answer) -> Option<i32> {
        number(answer)
    }
}

/// `Number`, as a moment, which isn't below 0.
pub struct IsMoment;

impl Takes<i32> for IsMoment {
    ghost takes = { λ form. moment };

    fn take(&self, answer: Answer) -> Option<i32> {
        moment(answer)
    }
}

/// `Got`, `Bad` or `End`.
pub struct IsItem;

impl Takes<InputItem> for IsItem {
    ghost takes = { λ form. read_item };

    fn take(&self, answer: Answer) -> Option<InputItem> {
        read_item(answer)
    }
}

/// `Took`, of one invocation.
#[derive(Clone, Copy)]
pub struct IsReply {
    pub id: u32,
}

impl Takes<Taken> for IsReply {
    ghost use Rattle.std.specs.Prelude.{[], ◌∷◌};

    ghost takes = { λ form. took (form.id ∷ []) };

    fn take(&self, answer: Answer) -> Option<Taken> {
        took(self.id, answer)
    }
}

/// The next answer.
fn next_answer(interpreter: &mut Interpreter) -> Option<Answer>
    ensures { UsesNextAnswer (stage_of interpreter.old) result (stage_of interpreter.new) }
{
    interpreter.answers.pop()
}

/// What the first answer of the form gives. The answers up to it are used.
fn heard<T, F: Takes<T>>(interpreter: &mut Interpreter, form: &F, limit: u32) -> Option<T>
    ensures { HearsAnswer (F.takes form.now) limit (stage_of interpreter.old) result (stage_of interpreter.new) }
{
    'answers: while let Some(answer) = next_answer(interpreter) {
        if let Some(got) = form.take(answer) {
            interpreter.ticks = limit;
            return Some(got);
        }
    }
    None
}

/// Asks, and goes on after the first answer of the form.
fn asked<T, F: Takes<T>>(
    interpreter: &mut Interpreter,
    form: &F,
    asks: Asks,
    limit: u32,
) -> Result<T, Stop>
    ensures { Agrees (asking (F.takes form.now) asks limit (stage_of interpreter.old)) result (stage_of interpreter.new) }
{
    match heard(interpreter, form, limit) {
        Some(got) => Ok(got),
        None => Err(Stop::Asks(asks)),
    }
}

/// Asks at the line of the statement, in the role of the process.
pub fn ask<C: HasCore, T, F: Takes<T>>(
    scene: &Scene<C>,
    interpreter: &mut Interpreter,
    form: &F,
    request: Request,
) -> Result<T, Stop>
    ensures { Agrees (ask_by (F.takes form.now) request (here_of C.core_of scene.now) (stage_of interpreter.old)) result (stage_of interpreter.new) }
{
    let ask = Ask {
        place: scene.place,
        role: scene.start.role,
        request,
    };
    asked(interpreter, form, Asks::Asked(ask), scene.limit)
}
