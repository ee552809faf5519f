ghost use Rattle.std.specs.Prelude.{◌≡◌, ◌↔◌, IsTrue, IfOk};

use sr_value::{Compare, Duplicate, NoMemory, Row, Value};
use std::alloc::Global;

/// What the machine answers to a request.
#[derive(Debug, Drop)]
pub enum Answer {
    Done,
    /// The value that was loaded or read.
    Got(Value),
    /// The number of the new instance.
    Made(u32),
    /// The global's instance is there, and its initial code has ended or replied.
    Ready,
    /// An invocation was chosen: its number, the arm that services it, its arguments, and its caller, or 0
    /// where nobody waits.
    Picked {
        id: u32,
        arm: u32,
        args: Row<Value>,
        back: u32,
    },
    /// No invocation can be serviced, and the `in` statement has an `else`.
    Else,
    /// A reply to the invocation `id`, with its results or with none, as an invocation of `noop` gives it.
    Took {
        id: u32,
        results: Option<Row<Value>>,
    },
    Number(i32),
    /// The next token isn't of the kind that was asked for.
    Bad,
    /// The input has ended.
    End,
}

impl Duplicate for Answer {
    fn copy(&self, alloc: Global) -> Result<Answer, NoMemory> {
        match self {
            Answer::Done => Ok(Answer::Done),
            Answer::Got(value) => Ok(Answer::Got(value.copy(alloc)?)),
            Answer::Made(name) => Ok(Answer::Made(*name)),
            Answer::Ready => Ok(Answer::Ready),
            Answer::Picked {
                id,
                arm,
                args,
                back,
            } => Ok(Answer::Picked {
                id: *id,
                arm: *arm,
                args: args.copy(alloc)?,
                back: *back,
            }),
            Answer::Else => Ok(Answer::Else),
            Answer::Took { id, results } => Ok(Answer::Took {
                id: *id,
                results: copied_results(alloc, results)?,
            }),
            Answer::Number(number) => Ok(Answer::Number(*number)),
            Answer::Bad => Ok(Answer::Bad),
            Answer::End => Ok(Answer::End),
        }
    }
}

/// A copy of the results of a reply.
fn copied_results(
    alloc: Global,
    results: &Option<Row<Value>>,
) -> Result<Option<Row<Value>>, NoMemory>
    ensures { IfOk result (λ c. c ≡ results.now) }
{
    match results {
        None => Ok(None),
        Some(values) => Ok(Some(values.copy(alloc)?)),
    }
}

impl Compare for Answer {
    fn same(&self, other: &Self) -> bool {
        match self {
            Answer::Done => matches!(other, Answer::Done),
            Answer::Got(value) => match other {
                Answer::Got(their_value) => value.same(their_value),
                _ => false,
            },
            Answer::Made(name) => match other {
                Answer::Made(their_name) => *name == *their_name,
                _ => false,
            },
            Answer::Ready => matches!(other, Answer::Ready),
            Answer::Picked {
                id,
                arm,
                args,
                back,
            } => match other {
                Answer::Picked {
                    id: their_id,
                    arm: their_arm,
                    args: their_args,
                    back: their_back,
                } => {
                    *id == *their_id
                        && *arm == *their_arm
                        && args.same(their_args)
                        && *back == *their_back
                }
                _ => false,
            },
            Answer::Else => matches!(other, Answer::Else),
            Answer::Took { id, results } => match other {
                Answer::Took {
                    id: their_id,
                    results: their_results,
                } => *id == *their_id && same_results(results, their_results),
                _ => false,
            },
            Answer::Number(number) => match other {
                Answer::Number(their_number) => *number == *their_number,
                _ => false,
            },
            Answer::Bad => matches!(other, Answer::Bad),
            Answer::End => matches!(other, Answer::End),
        }
    }
}

/// Whether the results of two replies are the same.
fn same_results(mine: &Option<Row<Value>>, theirs: &Option<Row<Value>>) -> bool
    ensures { IsTrue result ↔ (mine.now ≡ theirs.now) }
{
    match mine {
        None => theirs.is_none(),
        Some(values) => match theirs {
            None => false,
            Some(their_values) => values.same(their_values),
        },
    }
}
