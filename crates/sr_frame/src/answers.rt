ghost use Rattle.std.specs.Prelude.{◌≡◌, ◌∷◌, []};
ghost use Rattle.sr_ask.specs.Asking.{as_moment, done, got, made, moment, number, read_item, ready, selected, took};

use sr_ask::{Answer, InputItem, Pick, Selection, Taken};
use sr_value::Value;

// A call of one of the most frequent of these would move the answer once more.

/// `Done`.
#[inline(always)]
pub fn done(answer: Answer) -> Option<()>
    ensures { result ≡ done answer }
{
    match answer {
        Answer::Done => Some(()),
        _ => None,
    }
}

/// `Got`, with the value.
#[inline(always)]
pub fn got(answer: Answer) -> Option<Value>
    ensures { result ≡ got answer }
{
    match answer {
        Answer::Got(value) => Some(value),
        _ => None,
    }
}

/// `Made`, with the number of what was made.
#[inline(always)]
pub fn made(answer: Answer) -> Option<u32>
    ensures { result ≡ made answer }
{
    match answer {
        Answer::Made(name) => Some(name),
        _ => None,
    }
}

/// `Ready`.
pub fn ready(answer: Answer) -> Option<()>
    ensures { result ≡ ready answer }
{
    match answer {
        Answer::Ready => Some(()),
        _ => None,
    }
}

/// `Number`.
pub fn number(answer: Answer) -> Option<i32>
    ensures { result ≡ number answer }
{
    match answer {
        Answer::Number(number) => Some(number),
        _ => None,
    }
}

fn as_moment(number: i32) -> Option<i32>
    ensures { result ≡ as_moment number }
{
    if number < 0 { None } else { Some(number) }
}

/// `Number`, as a moment, which isn't below 0.
pub fn moment(answer: Answer) -> Option<i32>
    ensures { result ≡ moment answer }
{
    match answer {
        Answer::Number(number) => as_moment(number),
        _ => None,
    }
}

/// `Got`, `Bad` or `End`.
pub fn read_item(answer: Answer) -> Option<InputItem>
    ensures { result ≡ read_item answer }
{
    match answer {
        Answer::Got(value) => Some(InputItem::Value(value)),
        Answer::Bad => Some(InputItem::NotOfKind),
        Answer::End => Some(InputItem::NoMore),
        _ => None,
    }
}

/// `Took`, of one invocation.
#[inline(always)]
pub fn took(wanted: u32, answer: Answer) -> Option<Taken>
    ensures { result ≡ took (wanted ∷ []) answer }
{
    match answer {
        Answer::Took { id, results } => {
            if wanted == id {
                Some(Taken { id, results })
            } else {
                None
            }
        }
        _ => None,
    }
}

/// `Picked`, of one of so many arms; `Else`, where the statement has one.
#[inline(always)]
pub fn selected(arms: usize, has_else: bool, answer: Answer) -> Option<Selection>
    ensures { result ≡ selected arms has_else answer }
{
    match answer {
        Answer::Picked {
            id,
            arm,
            args,
            back,
        } => {
            if (arm as usize) < arms {
                Some(Selection::Service(Pick {
                    id,
                    arm,
                    args,
                    back,
                }))
            } else {
                None
            }
        }
        Answer::Else => {
            if has_else {
                Some(Selection::Otherwise)
            } else {
                None
            }
        }
        _ => None,
    }
}
