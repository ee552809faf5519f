use crate::picks::Picks;
use sr_ask::Answer;
use sr_value::{Cap, Row, Value};
use std::alloc::Global;

/// An answer of any form, whatever was asked.
pub fn of_any_form(alloc: Global, picks: &mut Picks) -> Answer {
    match picks.below(10) {
        0 => Answer::Done,
        1 => Answer::Got(of_any_type(picks)),
        2 => Answer::Made(picks.below(5)),
        3 => Answer::Ready,
        4 => Answer::Picked {
            id: picks.below(5),
            arm: picks.below(3),
            args: Row::new(alloc),
            back: picks.below(2),
        },
        5 => Answer::Else,
        6 => Answer::Took {
            id: picks.below(5),
            results: None,
        },
        7 => Answer::Number(picks.int_below(5)),
        8 => Answer::Bad,
        _ => Answer::End,
    }
}

fn of_any_type(picks: &mut Picks) -> Value {
    match picks.below(4) {
        0 => Value::Int(picks.int_below(10)),
        1 => Value::Bool(picks.below(2) == 1),
        2 => Value::Char(b'x'),
        _ => Value::Capa(Cap::Null),
    }
}

/// The answer with another number in it, where it has one.
pub fn with_another_number(answer: Answer, picks: &mut Picks) -> Answer {
    match answer {
        Answer::Got(Value::Int(_)) => Answer::Got(Value::Int(i32::MAX)),
        Answer::Made(_) => Answer::Made(picks.below(5)),
        Answer::Picked {
            id,
            arm,
            args,
            back: _,
        } => Answer::Picked {
            id,
            arm: arm.saturating_add(picks.below(2)),
            args,
            back: picks.below(3),
        },
        Answer::Took { id: _, results } => Answer::Took {
            id: picks.below(5),
            results,
        },
        Answer::Number(_) => Answer::Number(-1),
        other => other,
    }
}
