ghost use Rattle.std.specs.Prelude.{◌≡◌, ◌<◌, ℕ, [], ◌∷◌, ◌++◌, IfSome, IsTrue, OnErr, OnOk, Some, count_by, find, length, nat_le, remove, slice_get};
ghost use Rattle.sr_queue.specs.Classes.{next_among, same_class};
ghost use Rattle.sr_queue.specs.Indexes.{IsAscending};
ghost use Rattle.sr_queue.specs.Lines.{ChangesLine, IsRising, line_in};
ghost use Rattle.sr_queue.specs.declared.class.Class.{Class};
ghost use Rattle.sr_queue.specs.declared.index.Numbered.{Numbered};

use crate::class::Class;
use indexmap::IndexMap;
use sr_line::{HasNumber, Line, take_at};
use sr_value::NoMemory;
use std::alloc::Global;
use std::collections::VecDeque;
use std::marker::Model;

/// How many lines are kept though they may be empty: the next invocation takes no memory for its line then.
const LINES_KEPT: usize = 64;

/// What is known of a pending invocation without a look at it.
#[derive(Clone, Copy)]
pub struct Numbered {
    /// How many arrived before it.
    pub number: u64,
    pub class: Class,
}

impl HasNumber for Numbered {
    ghost number_of = { λ entry. entry.number };

    fn number(&self) -> u64 {
        self.number
    }
}

/// The operations of pending invocations in the order of their arrival, and where those of each operation stand.
#[derive(Drop)]
pub struct Index {
    alloc: Global,
    entries: Line<Numbered>,
    /// The number of the next that arrives.
    next: u64,
    /// The numbers of each operation that has any, and of some that had.
    lines: IndexMap<Class, VecDeque<u64>>,
}

impl Model for Index {
    ghost use Rattle.std.specs.Prelude.{List, map};
    ghost use Rattle.sr_queue.specs.declared.class.Class.{Class};
    ghost use Rattle.sr_queue.specs.Indexes.{IsIndex};
    ghost use Rattle.sr_queue.specs.Lines.{line_in};

    ghost Value = { List Class };

    ghost view = { λ index. map (λ e. e.class) index.entries.items };

    ghost invariant = { λ index. IsIndex index.entries.items index.next (λ class. line_in index.lines.entries class) };
}

impl Index {
    /// The index of nothing. It takes no memory.
    pub fn new(alloc: Global) -> Self
        ensures { result ≡ [] }
    {
        Index {
            alloc,
            entries: Line::new(alloc),
            next: 0,
            lines: IndexMap::new(alloc),
        }
    }

    /// How many there are of an operation.
    pub fn count(&self, class: Class) -> usize
        ensures { result ≡ count_by (same_class class) self.now }
    {
        match self.lines.get(&class) {
            Some(line) => line.len(),
            None => 0,
        }
    }

    /// The place of the first of an operation at or after a place.
    #[tactic(auto, using(crate::proofs::NextLemmas::next_here))]
    pub fn next_of(&self, class: Class, from: usize) -> Option<usize>
        ensures { result ≡ next_among class from self.now }
    {
        if self.is_at(class, from) {
            return Some(from);
        }
        self.next_in_line(class, from)
    }

    /// Whether the one at a place is of an operation.
    #[tactic(auto, using(crate::proofs::NextLemmas::class_at))]
    fn is_at(&self, class: Class, place: usize) -> bool
        ensures { IsTrue result → slice_get self.now place ≡ Some class }
    {
        match self.entries.get(place) {
            Some(entry) => entry.class == class,
            None => false,
        }
    }

    /// The same as `next_of`, by the line of the operation.
    fn next_in_line(&self, class: Class, from: usize) -> Option<usize>
        ensures { result ≡ next_among class from self.now }
    {
        let line = self.lines.get(&class)?;
        let least = self.entries.get(from)?.number;
        let number = first_from(line, least)?;
        place_of(&self.entries, number)
    }

    /// Adds one after all others. Where it can't, the index is to be given up.
    pub fn push(&mut self, class: Class) -> Result<(), NoMemory>
        ensures { OnOk result (self.new ≡ self.old ++ class ∷ []) }
    {
        let number = self.next;
        if number == u64::MAX {
            return Err(NoMemory);
        }
        self.entries.reserve()?;
        note(self.alloc, &mut self.lines, class, number)?;
        self.entries.push_reserved(Numbered { number, class });
        self.next = number + 1;
        Ok(())
    }

    /// Takes the one at a place out.
    pub fn remove_at(&mut self, place: usize)
        requires { place < length self.old }
        ensures { self.new ≡ remove self.old place }
    {
        if let Some(Numbered { number, class }) = self.entries.remove(place) {
            forget(&mut self.lines, class, number);
        }
    }
}

/// Puts a number at the end of the line of an operation.
fn note(
    alloc: Global,
    lines: &mut IndexMap<Class, VecDeque<u64>>,
    class: Class,
    number: u64,
) -> Result<(), NoMemory>
    ensures ok { OnOk result (ChangesLine lines.old.entries lines.new.entries class (line_in lines.old.entries class ++ number ∷ [])) }
    ensures err { OnErr result ((q : Class) → line_in lines.new.entries q ≡ line_in lines.old.entries q) }
{
    if let Some(line) = lines.get_mut(&class) {
        line.push_back(number)?;
        return Ok(());
    }
    let mut line = VecDeque::new(alloc);
    line.push_back(number)?;
    lines.insert(class, line)?;
    Ok(())
}

/// Takes a number out of the line of an operation.
fn forget(lines: &mut IndexMap<Class, VecDeque<u64>>, class: Class, number: u64)
    requires { IsRising (line_in lines.old.entries class) }
    ensures { (place : ℕ) → slice_get (line_in lines.old.entries class) place ≡ Some number → ChangesLine lines.old.entries lines.new.entries class (remove (line_in lines.old.entries class) place) }
{
    let Some(line) = lines.get_mut(&class) else {
        return;
    };
    take_number(line, number);
    if line.is_empty() {
        drop_empty(lines, class);
    }
}

/// Drops the line of an operation, which is empty, unless few lines are kept.
fn drop_empty(lines: &mut IndexMap<Class, VecDeque<u64>>, class: Class)
    requires { line_in lines.old.entries class ≡ [] }
    ensures { ChangesLine lines.old.entries lines.new.entries class [] }
{
    if lines.len() > LINES_KEPT {
        let _ = lines.swap_remove(&class);
    }
}

/// Takes a number out of a line.
fn take_number(line: &mut VecDeque<u64>, number: u64)
    requires { IsRising line.old.items }
    ensures { (place : ℕ) → slice_get line.old.items place ≡ Some number → line.new.items ≡ remove line.old.items place }
{
    if let Ok(at) = line.binary_search(&number) {
        let _ = take_at(line, at);
    }
}

/// The first number of a line that isn't below another.
fn first_from(line: &VecDeque<u64>, least: u64) -> Option<u64>
    requires { IsRising line.now.items }
    ensures { result ≡ find (λ number. nat_le least number) line.now.items }
{
    let at = line.partition_point(|number| *number < least);
    line.get(at).copied()
}

/// The place of a number.
fn place_of(entries: &Line<Numbered>, number: u64) -> Option<usize>
    requires { IsAscending entries.now.items }
    ensures { (place : ℕ) (e : Numbered) → slice_get entries.now.items place ≡ Some e → e.number ≡ number → result ≡ Some place }
{
    match place_by_distance(entries, number) {
        Some(place) => Some(place),
        None => entries.place_of(number),
    }
}

/// The place of a number that stands as far from the first as it is greater: none between them has left.
fn place_by_distance(entries: &Line<Numbered>, number: u64) -> Option<usize>
    ensures { IfSome result (λ place. (e : Numbered) × (slice_get entries.now.items place ≡ Some e) × (e.number ≡ number)) }
{
    let first = entries.get(0)?.number;
    let distance = number.wrapping_sub(first) as usize;
    if entries.get(distance)?.number == number {
        Some(distance)
    } else {
        None
    }
}
