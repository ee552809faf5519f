ghost use Rattle.std.specs.List.{AllByRecursion};
ghost use Rattle.sr_plain.specs.Passing.{FitsItem};
ghost use Rattle.sr_run.specs.UnderWay.{EndsWith, PutsItem};

use crate::end::RunEnd;
use sr_ask::Item;
use sr_ports::{PortFail, Sink, put_all};
use sr_value::Row;
use sr_world::End;

/// Adds an item, and puts what it wrote.
pub(crate) fn put_item<O: Sink>(
    items: &mut Row<Item>,
    item: Item,
    output: &mut O,
    text: &[u8],
) -> Option<RunEnd>
    ensures fit { AllByRecursion FitsItem items.old → AllByRecursion FitsItem items.new }
    ensures puts { PutsItem item text.now items.old items.new (O.held output.old) (O.held output.new) (O.faults output.old) (O.faults output.new) result }
{
    match items.push(item) {
        Ok(()) => match put_all(output, text) {
            Ok(()) => None,
            Err(PortFail::Failed) => Some(RunEnd::WriteFault),
            Err(PortFail::NoMemory) => Some(RunEnd::NoMemory),
        },
        Err(_) => Some(RunEnd::NoMemory),
    }
}

/// Adds the item that ends the run.
#[cold]
#[inline(never)]
pub(crate) fn end_with(items: &mut Row<Item>, item: Item, end: End) -> RunEnd
    ensures fit { AllByRecursion FitsItem items.old → AllByRecursion FitsItem items.new }
    ensures ends { EndsWith item end items.old items.new result }
{
    match items.push(item) {
        Ok(()) => RunEnd::Ended(end),
        Err(_) => RunEnd::NoMemory,
    }
}
