use crate::counted::Counted;
use sr_core::{Classes, Core};
use sr_ports::{MemSink, MemSource};
use sr_run::{Run, RunEnd, run, run_in_rounds};
use sr_tree_actor::TreeActor;
use sr_value::{Row, Text};
use sr_world::End;
use std::alloc::Global;

/// Whether a run makes main, writes, ends main's initial code, tells the first process, ends that, and rests.
pub fn writes(alloc: Global, core: &Core) -> bool {
    let mut input = MemSource::new(Text::new(alloc), 1, Row::new(alloc));
    let mut output = MemSink::new(alloc, 1, Row::new(alloc));
    let run = run::<TreeActor, _, _>(alloc, core, 100, 100, &mut input, &mut output);
    run.items.len() == 6
        && run.end == RunEnd::Ended(End::Quiet)
        && output.held() == b"7\n".as_slice()
}

/// Whether a run makes main, tells it the moment, which it writes, tells it the moment again, and rests while it naps.
pub fn naps(alloc: Global, core: &Core) -> bool {
    let mut input = MemSource::new(Text::new(alloc), 1, Row::new(alloc));
    let mut output = MemSink::new(alloc, 1, Row::new(alloc));
    let run = run::<TreeActor, _, _>(alloc, core, 100, 100, &mut input, &mut output);
    run.items.len() == 5
        && run.end == RunEnd::Ended(End::Quiet)
        && output.held() == b"0\n".as_slice()
}

/// The run of four workers of which the pass of this number finds no memory, if it isn't 0.
fn in_rounds(alloc: Global, core: &Core, fails_at: u32, output: &mut MemSink) -> Run {
    let classes = Classes {
        of: Row::new(alloc),
    };
    let mut rounds = Counted {
        passes: 0,
        fails_at,
    };
    let mut input = MemSource::new(Text::new(alloc), 1, Row::new(alloc));
    run_in_rounds::<TreeActor, _, _, _>(
        alloc,
        core,
        &classes,
        100,
        100,
        4,
        &mut rounds,
        &mut input,
        output,
    )
}

/// Whether a run in rounds ends so and writes, after so many items and stretches.
pub fn goes_round(
    alloc: Global,
    core: &Core,
    fails_at: u32,
    end: RunEnd,
    items: usize,
    stretches: usize,
) -> bool {
    let mut output = MemSink::new(alloc, 1, Row::new(alloc));
    let run = in_rounds(alloc, core, fails_at, &mut output);
    run.end == end
        && run.items.len() == items
        && run.rounds.len() == stretches
        && output.held() == b"7\n".as_slice()
}
