ghost use Rattle.std.specs.Prelude.{◌≡◌, ◌==◌, ◌&&◌, ◌+◌, ◌++◌, IfOk, OnOk, not};
ghost use Rattle.sr_clock_rows.specs.Lasts.{last_in};
ghost use Rattle.sr_races.specs.Items.{Run, actor_at, number_at};
ghost use Rattle.sr_races.specs.Links.{ends_all as ends_all_of, is_stop as is_stop_of, is_take as is_take_of};
ghost use Rattle.sr_world.specs.Deciding.{is_select as is_select_of};
ghost use Rattle.sr_races.specs.Origins.{AreOrigins, after_in, closing_if as closing_if_of, duty_at, first_some as first_some_of, listed, made_if as made_if_of, only_if as only_if_of, origins_in, readied_at};

use sr_ask::Request;
use sr_clock_rows::Lasts;
use sr_value::{NoMemory, Row};
use std::alloc::Global;

/// From which items links may still come.
#[derive(Drop)]
pub(crate) struct Origins {
    /// The last item of each process.
    pub lasts: Lasts,
    /// The item that gave out each number. An invocation and the process that it makes have one number.
    pub makers: Lasts,
    /// The last item that had the duty to answer each call: once the reply is there, the one that made it.
    pub answerers: Lasts,
    /// The last item by which each instance became ready.
    pub readiers: Lasts,
    /// The last item that ended all.
    pub closing: Option<u32>,
}

/// What an item leaves for links to later ones: its process, the number that it gives out, that of the call whose duty it
/// has, the instance that becomes ready, each 0 where there is none, and whether it ends all.
#[derive(Clone, Copy)]
pub(crate) struct Left {
    pub process: u32,
    pub number: u32,
    pub duty: u32,
    pub readied: u32,
    pub ends: bool,
}

impl Origins {
    /// There are no items yet.
    pub fn new(alloc: Global) -> Self
        ensures { (r : Run) → AreOrigins r 0 result }
    {
        Origins {
            lasts: Lasts::new(alloc),
            makers: Lasts::new(alloc),
            answerers: Lasts::new(alloc),
            readiers: Lasts::new(alloc),
            closing: None,
        }
    }

    /// The items from whose rows the row of a step is made that doesn't end all. `answered` is the number that its answer
    /// names, and `global` the instance of the global that it asks for, or 0.
    pub fn of(
        &self,
        alloc: Global,
        process: u32,
        request: &Request,
        answered: u32,
        global: u32,
    ) -> Result<Row<u32>, NoMemory>
        ensures { IfOk result (λ origins. origins ≡ origins_in self.now process request.now answered global) }
    {
        let last = self.lasts.of(process);
        let maker = self.maker(process);
        let service = self.service(request, answered);
        let answer = self.answer(request, answered);
        let readier = self.readiers.of(global);
        six(alloc, self.closing, last, maker, service, answer, readier)
    }

    /// The items from whose rows the row of a rest or a passing of time is made that doesn't end all.
    pub fn closing_only(&self, alloc: Global) -> Result<Row<u32>, NoMemory>
        ensures { IfOk result (λ origins. origins ≡ listed self.now.closing) }
    {
        let mut items = Row::new(alloc);
        push_some(&mut items, self.closing)?;
        Ok(items)
    }

    /// The item that made a process, where that makes its first item.
    pub fn maker(&self, process: u32) -> Option<u32>
        ensures { result ≡ made_if_of (last_in self.now.lasts process) (last_in self.now.makers process) }
    {
        made_if(self.lasts.of(process), self.makers.of(process))
    }

    /// The item that made the invocation that a step services.
    fn service(&self, request: &Request, answered: u32) -> Option<u32>
        ensures { result ≡ only_if_of (is_select_of request.now) (last_in self.now.makers answered) }
    {
        only_if(is_select(request), self.makers.of(answered))
    }

    /// The item that made the reply that a step takes.
    fn answer(&self, request: &Request, answered: u32) -> Option<u32>
        ensures { result ≡ only_if_of (is_take_of request.now) (last_in self.now.answerers answered) }
    {
        only_if(is_take(request), self.answerers.of(answered))
    }

    /// The item that made the invocation that a step services, or the reply that it takes, or with which the instance became
    /// ready that it asks for.
    pub fn after(&self, request: &Request, answered: u32, global: u32) -> Option<u32>
        ensures { result ≡ after_in self.now request.now answered global }
    {
        let service = self.service(request, answered);
        let answer = self.answer(request, answered);
        let readier = self.readiers.of(global);
        let other = first_some(answer, readier);
        first_some(service, other)
    }

    /// Notes what the next item leaves.
    pub fn note(&mut self, item: u32, left: Left) -> Result<(), NoMemory>
        ensures { (r : Run) → AreOrigins r item self.old → actor_at r item ≡ left.process → number_at r item ≡ left.number → duty_at r item ≡ left.duty → readied_at r item ≡ left.readied → ends_all_of r item ≡ left.ends → OnOk result (AreOrigins r (item + 1) self.new) }
    {
        self.lasts.note(left.process, item)?;
        self.makers.note(left.number, item)?;
        self.answerers.note(left.duty, item)?;
        self.readiers.note(left.readied, item)?;
        self.closing = closing_if(left.ends, item, self.closing);
        Ok(())
    }
}

/// Whether a request chooses an invocation to be serviced.
fn is_select(request: &Request) -> bool
    ensures { result ≡ is_select_of request.now }
{
    matches!(request, Request::Select { .. })
}

/// Whether a request takes a reply.
fn is_take(request: &Request) -> bool
    ensures { result ≡ is_take_of request.now }
{
    matches!(request, Request::Take { .. })
}

/// Whether a step ends all: it ends the program, and makes the process of main's final code.
pub(crate) fn ends_all(name: u32, request: &Request) -> bool
    ensures { result ≡ (not (name == 0) && is_stop_of request.now) }
{
    name != 0 && is_stop(request)
}

/// Whether a request ends the program.
fn is_stop(request: &Request) -> bool
    ensures { result ≡ is_stop_of request.now }
{
    matches!(request, Request::Stop { .. })
}

/// The item that made a process, where that makes its first item.
fn made_if(last: Option<u32>, maker: Option<u32>) -> Option<u32>
    ensures { result ≡ made_if_of last maker }
{
    match last {
        Some(_) => None,
        None => maker,
    }
}

/// The last item that ended all, once there is one item more.
fn closing_if(ends: bool, item: u32, closing: Option<u32>) -> Option<u32>
    ensures { result ≡ closing_if_of ends item closing }
{
    if ends { Some(item) } else { closing }
}

/// The first of two items, where there is one.
fn first_some(first: Option<u32>, second: Option<u32>) -> Option<u32>
    ensures { result ≡ first_some_of first second }
{
    match first {
        Some(_) => first,
        None => second,
    }
}

/// An item, where the test passes.
fn only_if(passes: bool, item: Option<u32>) -> Option<u32>
    ensures { result ≡ only_if_of passes item }
{
    if passes { item } else { None }
}

/// The items that there are of these.
fn six(
    alloc: Global,
    one: Option<u32>,
    two: Option<u32>,
    three: Option<u32>,
    four: Option<u32>,
    five: Option<u32>,
    last: Option<u32>,
) -> Result<Row<u32>, NoMemory>
    ensures { IfOk result (λ items. items ≡ listed one ++ (listed two ++ (listed three ++ (listed four ++ (listed five ++ listed last))))) }
{
    let mut items = Row::new(alloc);
    push_three(&mut items, one, two, three)?;
    push_three(&mut items, four, five, last)?;
    Ok(items)
}

fn push_three(
    items: &mut Row<u32>,
    one: Option<u32>,
    two: Option<u32>,
    three: Option<u32>,
) -> Result<(), NoMemory>
    ensures { OnOk result (items.new ≡ items.old ++ (listed one ++ (listed two ++ listed three))) }
{
    push_some(items, one)?;
    push_some(items, two)?;
    push_some(items, three)
}

fn push_some(items: &mut Row<u32>, item: Option<u32>) -> Result<(), NoMemory>
    ensures { OnOk result (items.new ≡ items.old ++ listed item) }
{
    match item {
        Some(item) => items.push(item),
        None => Ok(()),
    }
}
