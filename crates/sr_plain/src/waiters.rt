ghost use Rattle.std.specs.Prelude.{◌≡◌, ◌&&◌, ◌<◌, ℕ, [], IfOk, OnOk, false, nat_lt, true};
ghost use Rattle.std.specs.BTreeSet.{contains};
ghost use Rattle.std.specs.Ordering.{nat_cmp};
ghost use Rattle.sr_plain.specs.Waiting.{AreTakenUnder, AreWokenUnder, HaveJoined, HaveOpened, HoldsProcess, IsFirst, IsFirstUpTo, IsJoined, IsMadeReady, IsNext, IsOpenedAt, IsPromoted, IsPutBack, IsShut, IsTakenOut, IsWokenAt, WaitsAlso, WaitsThere, WaitsUnder, is_closed, is_ready, may_go, turns_len};
ghost use Rattle.sr_plain.specs.declared.waiters.Place.TheVariants.{Idle, Served, Stored, Watched};
ghost use Rattle.sr_plain.specs.declared.waiters.Waiting.TheVariants.{Many};
ghost use Rattle.sr_queue.specs.declared.class.Class as served;

use crate::crowd::{Opened, first_open, first_open_after, place_of, place_with, sooner, take_from};
use crate::ready::Ready;
use crate::variable::Variable;
use sr_queue::Class;
use sr_value::{NoMemory, Row};
use std::alloc::Global;
use std::collections::{BTreeSet, HashMap};
use std::hash::Hash;

/// Where a process waits.
#[derive(Clone, Copy)]
pub enum Place {
    /// For any change.
    Watched,
    /// For invocations of an operation.
    Served(Class),
    /// For what a shared variable holds.
    Stored(Variable),
    /// For invocations of an operation, at a statement without guards and `else`.
    Idle(Class),
}

/// Those that wait at one place.
#[derive(Drop)]
pub(crate) enum Waiting {
    Nobody,
    One(u32),
    Many(BTreeSet<u32>),
}

/// How many places are kept though nobody may wait there: whoever waits there next needs no new entry.
const PLACES_KEPT: usize = 64;

/// The processes that are asked in turn, and where those wait that aren't.
#[derive(Drop)]
pub struct Waiters {
    pub(crate) alloc: Global,
    /// The processes that may be able to make a step.
    pub(crate) ready: Ready,
    /// Those that wait for any change.
    pub(crate) watched: BTreeSet<u32>,
    /// Those that wait for invocations.
    pub(crate) classes: HashMap<Class, Waiting>,
    /// Those that wait for shared variables.
    pub(crate) variables: HashMap<Variable, Waiting>,
    /// Those that wait at statements without guards and `else`, for operations that have no invocations.
    pub(crate) idle: HashMap<Class, Waiting>,
    /// Those that wait so for operations that may have got some.
    pub(crate) opened: Row<Opened>,
}

fn join(ready: &mut BTreeSet<u32>, processes: &mut BTreeSet<u32>) -> Result<(), NoMemory>
    ensures { OnOk result (IsJoined processes.old ready.old ready.new) }
{
    while let Some(process) = processes.pop_first() {
        ready.insert(process)?;
    }
    Ok(())
}

/// Puts those in who waited.
fn join_waiting(ready: &mut BTreeSet<u32>, waiting: Waiting) -> Result<(), NoMemory>
    ensures { OnOk result (HaveJoined waiting ready.old ready.new) }
{
    match waiting {
        Waiting::Nobody => Ok(()),
        Waiting::One(process) => {
            ready.insert(process)?;
            Ok(())
        }
        Waiting::Many(processes) => {
            let mut processes = processes;
            join(ready, &mut processes)
        }
    }
}

fn alone(alloc: Global, process: u32) -> Result<BTreeSet<u32>, NoMemory>
    ensures { IfOk result (λ processes. contains nat_cmp processes process ≡ true) }
{
    let mut processes = BTreeSet::new(alloc);
    processes.insert(process)?;
    Ok(processes)
}

#[inline(never)]
fn both(alloc: Global, process: u32, other: u32) -> Result<BTreeSet<u32>, NoMemory>
    ensures itself { IfOk result (λ processes. contains nat_cmp processes process ≡ true) }
    ensures other { IfOk result (λ processes. contains nat_cmp processes other ≡ true) }
{
    let mut processes = alone(alloc, process)?;
    processes.insert(other)?;
    Ok(processes)
}

impl Waiting {
    /// Has one more wait there.
    #[inline(always)]
    fn add(&mut self, alloc: Global, process: u32) -> Result<(), NoMemory>
        ensures { OnOk result (WaitsAlso process self.old self.new) }
    {
        match self {
            Waiting::Nobody => {
                *self = Waiting::One(process);
                Ok(())
            }
            Waiting::One(first) => {
                if *first != process {
                    *self = Waiting::Many(both(alloc, *first, process)?);
                }
                Ok(())
            }
            Waiting::Many(processes) => {
                processes.insert(process)?;
                Ok(())
            }
        }
    }
}

/// Has one more wait under a key.
#[inline(always)]
fn wait_under<K: Copy + Eq + Hash>(
    table: &mut HashMap<K, Waiting>,
    alloc: Global,
    key: K,
    process: u32,
) -> Result<(), NoMemory>
    ensures { OnOk result (WaitsUnder K.eq key process table.old table.new) }
{
    match table.get_mut(&key) {
        Some(waiting) => waiting.add(alloc, process),
        None => {
            table.insert(key, Waiting::One(process))?;
            Ok(())
        }
    }
}

/// Takes out who waits under a key.
#[inline(always)]
fn take_under<K: Copy + Eq + Hash>(table: &mut HashMap<K, Waiting>, key: K) -> Waiting
    ensures { AreTakenUnder K.eq key table.old table.new result }
{
    if table.len() > PLACES_KEPT {
        return remove_under(table, key);
    }
    match table.get_mut(&key) {
        Some(waiting) => std::mem::replace(waiting, Waiting::Nobody),
        None => Waiting::Nobody,
    }
}

/// The same, and the key goes.
#[inline(never)]
fn remove_under<K: Copy + Eq + Hash>(table: &mut HashMap<K, Waiting>, key: K) -> Waiting
    ensures { AreTakenUnder K.eq key table.old table.new result }
{
    match table.remove(&key) {
        Some(waiting) => waiting,
        None => Waiting::Nobody,
    }
}

/// Makes ready who waits under a key. Where nobody waits at all, nothing is looked up.
#[inline(always)]
fn wake_under<K: Copy + Eq + Hash>(
    ready: &mut Ready,
    table: &mut HashMap<K, Waiting>,
    key: K,
) -> Result<(), NoMemory>
    ensures { OnOk result (AreWokenUnder K.eq key table.old table.new ready.old ready.new) }
{
    if table.is_empty() {
        return Ok(());
    }
    let waiting = take_under(table, key);
    ready.join_waiting(waiting)
}

impl Waiters {
    pub(crate) fn new(alloc: Global) -> Self {
        Waiters {
            alloc,
            ready: Ready::new(alloc),
            watched: BTreeSet::new(alloc),
            classes: HashMap::new(alloc),
            variables: HashMap::new(alloc),
            idle: HashMap::new(alloc),
            opened: Row::new(alloc),
        }
    }

    /// Has a process be asked in turn.
    pub(crate) fn make_ready(&mut self, process: u32) -> Result<(), NoMemory>
        ensures { OnOk result (IsMadeReady process self.old self.new) }
    {
        self.ready.insert(process)
    }

    /// Has a process be asked no more.
    pub(crate) fn take_out(&mut self, process: u32)
        ensures out { IsTakenOut process self.old self.new }
        ensures less { is_ready self.old process ≡ true → turns_len self.new < turns_len self.old }
    {
        self.ready.take_out(process);
    }

    /// Has a process wait there.
    #[inline(always)]
    pub(crate) fn wait(&mut self, place: Place, process: u32) -> Result<(), NoMemory>
        ensures { OnOk result (WaitsThere place process self.old self.new) }
    {
        match place {
            Place::Watched => {
                self.watched.insert(process)?;
                Ok(())
            }
            Place::Served(class) => wait_under(&mut self.classes, self.alloc, class, process),
            Place::Stored(variable) => {
                wait_under(&mut self.variables, self.alloc, variable, process)
            }
            Place::Idle(class) => self.wait_idle(class, process),
        }
    }

    /// Has a process wait for invocations of an operation, and for nothing else. Those who wait so aren't asked until it
    /// gets one.
    fn wait_idle(&mut self, class: Class, process: u32) -> Result<(), NoMemory>
        ensures { OnOk result (WaitsThere (Idle class) process self.old self.new) }
    {
        self.shut(class)?;
        wait_under(&mut self.idle, self.alloc, class, process)
    }

    /// Has those asked no more that wait for invocations of an operation.
    fn shut(&mut self, class: Class) -> Result<(), NoMemory>
        ensures { OnOk result (IsShut class self.old self.new) }
    {
        if self.opened.is_empty() {
            return Ok(());
        }
        match place_of(self.opened.as_slice(), class) {
            Some(place) => {
                let Opened { processes, .. } = self.opened.remove(place);
                self.put_back(class, processes)
            }
            None => Ok(()),
        }
    }

    fn put_back(&mut self, class: Class, processes: BTreeSet<u32>) -> Result<(), NoMemory>
        ensures { OnOk result (IsPutBack class processes self.old self.new) }
    {
        match self.idle.remove(&class) {
            Some(waiting) => {
                let mut processes = processes;
                join_waiting(&mut processes, waiting)?;
                self.idle.insert(class, Waiting::Many(processes))?;
                Ok(())
            }
            None => {
                self.idle.insert(class, Waiting::Many(processes))?;
                Ok(())
            }
        }
    }

    /// Has those asked in turn that wait for invocations of an operation, which may have got one.
    #[inline(always)]
    pub(crate) fn open(&mut self, class: Class) -> Result<(), NoMemory>
        ensures { OnOk result (IsOpenedAt class self.old self.new) }
    {
        if self.idle.is_empty() {
            return Ok(());
        }
        let waiting = take_under(&mut self.idle, class);
        self.open_waiting(class, waiting)
    }

    fn open_waiting(&mut self, class: Class, waiting: Waiting) -> Result<(), NoMemory>
        ensures { OnOk result (HaveOpened class waiting self.old self.new) }
    {
        match waiting {
            Waiting::Nobody => Ok(()),
            Waiting::One(process) => self.ready.insert(process),
            Waiting::Many(processes) => self.open_many(class, processes),
        }
    }

    /// Opens an operation for all of them. If they are no more than the operations that are open, they are made ready
    /// instead, since a look for the next looks at each open operation.
    #[inline(never)]
    fn open_many(&mut self, class: Class, processes: BTreeSet<u32>) -> Result<(), NoMemory>
        ensures { OnOk result (HaveOpened class (Many processes) self.old self.new) }
    {
        if processes.len() <= self.opened.len() {
            let mut processes = processes;
            return self.ready.join(&mut processes);
        }
        self.opened.push(Opened { class, processes })
    }

    /// Nobody waits for invocations alone.
    pub(crate) fn open_all(&mut self)
        ensures { (class : served.Class) (process : ℕ) → is_closed self.new class process ≡ false }
    {
        self.idle = HashMap::new(self.alloc);
        self.opened = Row::new(self.alloc);
    }

    /// Has a process be asked by itself, and not as one of many.
    #[inline(always)]
    pub(crate) fn promote(&mut self, process: u32) -> Result<(), NoMemory>
        requires { may_go self.old process ≡ true }
        ensures { OnOk result (IsPromoted process self.old self.new) }
    {
        if self.opened.is_empty() {
            return Ok(());
        }
        self.promote_open(process)
    }

    #[inline(never)]
    fn promote_open(&mut self, process: u32) -> Result<(), NoMemory>
        requires { may_go self.old process ≡ true }
        ensures { OnOk result (IsPromoted process self.old self.new) }
    {
        match place_with(self.opened.as_slice(), process) {
            Some(place) => self.promote_from(place, process),
            None => Ok(()),
        }
    }

    fn promote_from(&mut self, place: usize, process: u32) -> Result<(), NoMemory>
        requires { HoldsProcess self.old.opened process place }
        ensures { OnOk result (IsPromoted process self.old self.new) }
    {
        take_from(&mut self.opened, place, process);
        self.ready.insert(process)
    }

    /// Makes ready who waits for any change.
    #[inline(always)]
    pub(crate) fn wake_watched(&mut self) -> Result<(), NoMemory>
        ensures { OnOk result (IsWokenAt Watched self.old self.new) }
    {
        if self.watched.is_empty() {
            return Ok(());
        }
        self.ready.join(&mut self.watched)
    }

    /// Makes ready who waits for invocations of an operation, and for more.
    #[inline(always)]
    pub(crate) fn wake_served(&mut self, class: Class) -> Result<(), NoMemory>
        ensures { OnOk result (IsWokenAt (Served class) self.old self.new) }
    {
        wake_under(&mut self.ready, &mut self.classes, class)
    }

    /// Makes ready who waits for a shared variable.
    #[inline(always)]
    pub(crate) fn wake_stored(&mut self, variable: Variable) -> Result<(), NoMemory>
        ensures { OnOk result (IsWokenAt (Stored variable) self.old self.new) }
    {
        wake_under(&mut self.ready, &mut self.variables, variable)
    }

    /// Who is asked next.
    pub(crate) fn next_after(&self, last: u32) -> Option<u32>
        ensures { IsNext self.now last result }
    {
        if self.opened.is_empty() {
            return self.next_ready(last);
        }
        self.next_of_all(last)
    }

    /// Who is asked next, where no operation is open.
    fn next_ready(&self, last: u32) -> Option<u32>
        requires { self.now.opened ≡ [] }
        ensures { IsNext self.now last result }
    {
        if let Some(process) = self.ready.sole() {
            return Some(process);
        }
        match self.ready.first_after(last) {
            Some(process) => Some(process),
            None => self.ready.first(),
        }
    }

    #[inline(never)]
    fn next_of_all(&self, last: u32) -> Option<u32>
        ensures { IsNext self.now last result }
    {
        match self.first_after(last) {
            Some(process) => Some(process),
            None => self.first(),
        }
    }

    fn first_after(&self, last: u32) -> Option<u32>
        ensures { IsFirst (λ q. nat_lt last q && may_go self.now q) result }
    {
        sooner(
            self.ready.first_after(last),
            first_open_after(self.opened.as_slice(), last),
        )
    }

    /// The first that may be asked of those after one number and up to another.
    pub(crate) fn first_up_to(&self, low: u32, high: u32) -> Option<u32>
        ensures { IsFirstUpTo self.now low high result }
    {
        match self.first_after(low) {
            Some(process) => { if process <= high { Some(process) } else { None } }
            None => None,
        }
    }

    fn first(&self) -> Option<u32>
        ensures { IsFirst (may_go self.now) result }
    {
        sooner(self.ready.first(), first_open(self.opened.as_slice()))
    }
}
