ghost use Rattle.std.specs.Prelude.{◌≡◌, ◌↔◌, ◌+◌, ◌<◌, ◌≤◌, ◌^◌, ◌++◌, ◌∷◌, [], if◌then◌else◌, IfOk, IsTrue, OnOk, false, filter, is_some, length, map, option_copied, option_to_list, position, slice_get};
ghost use Rattle.std.specs.Option.{option_map, option_map_or};
ghost use Rattle.indexmap.specs.IndexMap.{spare, values};
ghost use Rattle.sr_processes.specs.Living.{IsLive, is_among, numbers_in, start_of, without_process};
ghost use Rattle.sr_processes.specs.Tables.{IsTable, number_in, starts_in};

use indexmap::IndexMap;
use sr_ask::Start;
use sr_value::{NoMemory, Row};
use std::alloc::Global;
use std::marker::Model;

/// How many seats may be empty beside as many as there are processes.
const FEW: usize = 16;

/// The processes that haven't ended, in the order of their making.
#[derive(Drop)]
pub struct Processes {
    /// By number. A process that has ended leaves an empty seat, until these are swept out together.
    seats: IndexMap<u32, Option<Start>>,
    living: usize,
}

impl Model for Processes {
    ghost use Rattle.indexmap.specs.IndexMap.{spare};
    ghost use Rattle.std.specs.Prelude.{ℕ, List, refl};
    ghost use Rattle.std.specs.Coded.{code_by, coded×, coded_list, coded_ℕ};
    ghost use Rattle.sr_ask.specs.declared.start.Start.{Start};
    ghost use Rattle.sr_ask.specs.contracts.start.Start as start;
    ghost use Rattle.sr_processes.specs.Living.{Living};
    ghost use Rattle.sr_processes.specs.Tables.{IsCounted, starts_in};

    ghost Value = { Living };

    ghost coded = { code_by (List Start × ℕ) (coded× (coded_list start.the_row.coded) coded_ℕ)
        (λ l. (l.starts, l.room)) (λ p. record { starts = p.0; room = p.1 }) (λ _. refl) };

    ghost view = { λ processes. record { starts = starts_in processes.seats.entries; room = spare processes.seats } };

    ghost invariant = { λ processes. IsCounted processes.seats.entries processes.living };
}

impl Processes {
    /// No processes. It takes no memory.
    pub fn new(alloc: Global) -> Self
        ensures { result.starts ≡ [] }
    {
        Processes {
            seats: IndexMap::new(alloc),
            living: 0,
        }
    }

    /// Makes room for one more process.
    pub fn reserve(&mut self) -> Result<(), NoMemory>
        ensures starts { self.new.starts ≡ self.old.starts }
        ensures ok { OnOk result (0 < self.new.room) }
        ensures kept { self.old.room ≤ self.new.room }
    {
        self.seats.reserve(1)?;
        Ok(())
    }

    /// Adds a process after all others. It takes no memory.
    pub fn add(&mut self, start: Start)
        requires room { 0 < self.old.room }
        requires new { ¬ IsLive self.old.starts start.process }
        ensures { self.new.starts ≡ self.old.starts ++ start ∷ [] }
    {
        put(&mut self.seats, start);
        self.living += 1;
    }

    /// What a process was started with, where it lives.
    #[inline(always)]
    pub fn start(&self, process: u32) -> Option<&Start>
        ensures { option_copied result ≡ start_of self.now.starts process }
    {
        self.seats.get(&process)?.as_ref()
    }

    /// Whether a process lives.
    pub fn is_live(&self, process: u32) -> bool
        ensures { IsTrue result ↔ IsLive self.now.starts process }
    {
        self.start(process).is_some()
    }

    /// How many processes live.
    pub fn len(&self) -> usize
        ensures { result ≡ length self.now.starts }
    {
        self.living
    }

    /// The process at a place in the order of their making, from 0. Where some have ended since the last
    /// sweep, it takes time by the place.
    pub fn at(&self, place: usize) -> Option<&Start>
        ensures { option_copied result ≡ slice_get self.now.starts place }
    {
        if self.living == self.seats.len() {
            let (_, seat) = self.seats.get_index(place)?;
            return seat.as_ref();
        }
        start_at(&self.seats, place)
    }

    /// The place of the first process whose number stands in a list. It takes no memory.
    pub fn first_among(&self, numbers: &[u32]) -> Option<usize>
        ensures { result ≡ position (is_among numbers.now) self.now.starts }
    {
        self.seats
            .values()
            .filter(|seat| seat.is_some())
            .position(|seat| has_number_among(seat, numbers))
    }

    /// The processes that run the code of an instance, in the order of their making.
    pub fn of_instance(&self, alloc: Global, instance: u32) -> Result<Row<u32>, NoMemory>
        ensures { IfOk result (λ numbers. numbers ≡ numbers_in self.now.starts instance) }
    {
        let mut numbers = Row::new(alloc);
        for seat in self.seats.values() {
            note(number_of_instance(seat, instance), &mut numbers)?;
        }
        Ok(numbers)
    }

    /// The numbers of all that live, in the order of their making.
    pub fn numbers(&self, alloc: Global) -> Result<Row<u32>, NoMemory>
        ensures { IfOk result (λ numbers. numbers ≡ map (λ s. s.process) self.now.starts) }
    {
        let mut numbers = Row::from_vec(Vec::with_capacity(alloc, self.living)?);
        for seat in self.seats.values() {
            note(number_of(seat), &mut numbers)?;
        }
        Ok(numbers)
    }

    /// Ends a process. It takes no memory; one that doesn't live changes nothing.
    pub fn end(&mut self, process: u32)
        ensures starts { self.new.starts ≡ without_process self.old.starts process }
        ensures kept { self.old.room ≤ self.new.room }
    {
        if !vacate(&mut self.seats, process) {
            return;
        }
        self.living -= 1;
        sweep(&mut self.seats, self.living);
    }

    /// Ends all processes. It takes no memory.
    pub fn end_all(&mut self)
        ensures starts { self.new.starts ≡ [] }
        ensures kept { self.old.room ≤ self.new.room }
    {
        self.seats.clear();
        self.living = 0;
    }
}

/// Puts a process into a seat after all others. The table has room for it.
fn put(seats: &mut IndexMap<u32, Option<Start>>, start: Start)
    requires table { IsTable seats.old.entries }
    requires room { 0 < spare seats.old }
    requires new { ¬ IsLive (starts_in seats.old.entries) start.process }
    ensures table { IsTable seats.new.entries }
    ensures starts { starts_in seats.new.entries ≡ starts_in seats.old.entries ++ start ∷ [] }
    ensures few { length (starts_in seats.new.entries) < 2 ^ 63 }
{
    let _ = seats.shift_remove(&start.process);
    let _ = seats.insert(start.process, Some(start));
    // The length is what says that one more can be counted.
    let _len = seats.len();
}

/// The process at a place, from 0, among those that sit in a table.
fn start_at(seats: &IndexMap<u32, Option<Start>>, place: usize) -> Option<&Start>
    ensures { option_copied result ≡ slice_get (starts_in seats.now.entries) place }
{
    taken_at(seats, place)?.as_ref()
}

/// The seat at a place, from 0, among those that aren't empty.
fn taken_at(seats: &IndexMap<u32, Option<Start>>, place: usize) -> Option<&Option<Start>>
    ensures { option_copied result ≡ slice_get (filter is_some (values seats.now)) place }
{
    seats.values().filter(|seat| seat.is_some()).nth(place)
}

/// Whether a process sits in a seat whose number stands in a list.
fn has_number_among(seat: &Option<Start>, numbers: &[u32]) -> bool
    ensures { result ≡ option_map_or (is_among numbers.now) seat.now false }
{
    match seat {
        Some(start) => numbers.contains(&start.process),
        None => false,
    }
}

/// The number of the process in a seat, where it runs the code of an instance.
fn number_of_instance(seat: &Option<Start>, instance: u32) -> Option<u32>
    ensures { result ≡ number_in instance seat.now }
{
    match seat {
        Some(start) if instance == start.instance => Some(start.process),
        _ => None,
    }
}

/// The number of the process in a seat.
fn number_of(seat: &Option<Start>) -> Option<u32>
    ensures { result ≡ option_map (λ start. start.process) seat.now }
{
    let start = seat.as_ref()?;
    Some(start.process)
}

/// Appends a number, where there is one.
fn note(number: Option<u32>, numbers: &mut Row<u32>) -> Result<(), NoMemory>
    ensures { OnOk result (numbers.new ≡ numbers.old ++ option_to_list number) }
{
    match number {
        Some(number) => numbers.push(number),
        None => Ok(()),
    }
}

/// Empties the seat of a process, and says whether it lived.
fn vacate(seats: &mut IndexMap<u32, Option<Start>>, process: u32) -> bool
    requires { IsTable seats.old.entries }
    ensures table { IsTable seats.new.entries }
    ensures starts { starts_in seats.new.entries ≡ without_process (starts_in seats.old.entries) process }
    ensures counted { length (starts_in seats.old.entries) ≡ length (starts_in seats.new.entries) + (if result then 1 else 0) }
    ensures room { spare seats.old ≤ spare seats.new }
{
    match seats.get_mut(&process) {
        Some(seat) => seat.take().is_some(),
        None => false,
    }
}

/// Sweeps the empty seats out where they are more than those that live and a few. It takes no memory.
fn sweep(seats: &mut IndexMap<u32, Option<Start>>, living: usize)
    requires { IsTable seats.old.entries }
    ensures table { IsTable seats.new.entries }
    ensures starts { starts_in seats.new.entries ≡ starts_in seats.old.entries }
    ensures room { spare seats.old ≤ spare seats.new }
{
    let empty = seats.len().saturating_sub(living);
    if empty <= living.saturating_add(FEW) {
        return;
    }
    seats.retain(
        |_process: &u32, seat: &mut Option<Start>| -> bool
            ensures { (result ≡ is_some seat.old) × (seat.new ≡ seat.old) }
        { seat.is_some() },
    );
}
