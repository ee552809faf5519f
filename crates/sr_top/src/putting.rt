ghost use Rattle.sr_top.specs.Causes.{PutsLines};
ghost use Rattle.sr_top.specs.Report.{GotAsFar};

use crate::report::{Ending, Side};
use sr_ports::{PortFail, Sink, put_all};

/// Puts a text, and says how far it got.
pub fn put_text<S: Sink>(text: &[u8], sink: &mut S) -> Side
    ensures { GotAsFar result text.now (S.held sink.old) (S.held sink.new) (S.faults sink.old) (S.faults sink.new) }
{
    match put_all(sink, text) {
        Ok(()) => Side::Whole,
        Err(PortFail::Failed) => Side::Failed,
        Err(PortFail::NoMemory) => Side::NoMemory,
    }
}

/// Puts lines, and says how the call ends then.
pub fn put_lines<O: Sink>(lines: &[u8], output: &mut O) -> Ending
    ensures { PutsLines lines.now (O.held output.old) (O.held output.new) (O.faults output.old) (O.faults output.new) result }
{
    match put_all(output, lines) {
        Ok(()) => Ending::Done,
        Err(PortFail::Failed) => Ending::WriteFault,
        Err(PortFail::NoMemory) => Ending::NoMemory,
    }
}
