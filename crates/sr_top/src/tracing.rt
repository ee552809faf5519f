ghost use Rattle.std.specs.Prelude.{◌≡◌, IfErr, IfOk, Some, false, true};
ghost use Rattle.sr_top.specs.Programs.{core_in};
ghost use Rattle.sr_top.specs.Replaying.{AreTracedOf};
ghost use Rattle.sr_top.specs.Stages.{EndsItems, run_of};
ghost use Rattle.sr_top.specs.Tracing.{EndsTold, told_text};
ghost use Rattle.sr_trace.specs.Pictures.{picture_of};
ghost use Rattle.sr_top.specs.declared.question.Question.TheVariants as question;

use crate::program::{Process, Program};
use crate::question::Tracing;
use crate::recorded::{Journal, count_upto};
use crate::report::{Ending, LimitKind};
use sr_races::{Traces, trace};
use sr_trace::{Traced, picture_text, trace_text};
use sr_value::Text;
use std::alloc::Global;

/// What is to be seen of a trace of the first items of a journal.
pub fn text_of_trace(
    alloc: Global,
    journal: &Journal,
    program: &Program,
    names: &[Text],
    input: &Text,
    tracing: Tracing,
) -> Result<Text, Ending>
    ensures lines { IfOk result (AreTracedOf tracing names.now journal.now.header.steps (run_of (core_in program.now) journal.now input.now)) }
    ensures ends { IfErr result (EndsItems (question.Trace tracing) journal.now.header.steps (run_of (core_in program.now) journal.now input.now)) }
{
    let header = &journal.header;
    match trace::<Process>(
        alloc,
        program,
        header.steps,
        header.ticks,
        input,
        &journal.items,
        count_upto(journal, tracing.upto),
    ) {
        Ok(Traces::Found(rows)) => told(alloc, program, names, tracing.picture, rows.as_slice()),
        Ok(Traces::Illegal { at }) => Err(Ending::Illegal(at)),
        Err(_) => Err(Ending::NoMemory),
    }
}

/// The lines of items, or their picture.
fn told(
    alloc: Global,
    program: &Program,
    names: &[Text],
    picture: bool,
    rows: &[Traced],
) -> Result<Text, Ending>
    ensures text { IfOk result (λ text. told_text (core_in program.now) names.now picture rows.now ≡ Some text) }
    ensures ends { IfErr result (EndsTold picture rows.now) }
{
    if picture {
        drawn(alloc, program, names, rows)
    } else {
        written(alloc, program, names, rows)
    }
}

/// The lines of items.
fn written(
    alloc: Global,
    program: &Program,
    names: &[Text],
    rows: &[Traced],
) -> Result<Text, Ending>
    ensures text { IfOk result (λ text. told_text (core_in program.now) names.now false rows.now ≡ Some text) }
    ensures ends { IfErr result (EndsTold false rows.now) }
{
    match trace_text(alloc, &program.program().core, names, rows) {
        Ok(text) => Ok(text),
        Err(_) => Err(Ending::NoMemory),
    }
}

/// The picture of items.
fn drawn(alloc: Global, program: &Program, names: &[Text], rows: &[Traced]) -> Result<Text, Ending>
    ensures text { IfOk result (λ text. picture_of (core_in program.now) names.now rows.now ≡ Some text) }
    ensures ends { IfErr result (EndsTold true rows.now) }
{
    match picture_text(alloc, &program.program().core, names, rows) {
        Ok(Some(text)) => Ok(text),
        Ok(None) => Err(Ending::Limit(LimitKind::Items)),
        Err(_) => Err(Ending::NoMemory),
    }
}
