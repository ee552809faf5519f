ghost use Rattle.std.specs.Prelude.{◌≡◌, ◌&&◌, ◌<◌, ◌||◌, ℕ, Bool, IfNone, IfSome, IsTrue, false, nat_lt, true};
ghost use Rattle.std.specs.BTreeSet.{contains};
ghost use Rattle.std.specs.Ordering.{nat_cmp};
ghost use Rattle.sr_plain.specs.Waiting.{HasLeft, HoldsClass, HoldsNobody, HoldsProcess, IsFirst, LeavesCrowd, StaysOpen, is_open};

use sr_queue::Class;
use sr_value::Row;
use std::collections::BTreeSet;
use std::ops::Bound;

/// Those that wait for invocations of an operation that may have got one.
#[derive(Drop)]
pub(crate) struct Opened {
    pub(crate) class: Class,
    pub(crate) processes: BTreeSet<u32>,
}

/// Whether none stands after it, which takes less time than to look for the first.
fn none_after(processes: &BTreeSet<u32>, last: u32) -> bool
    ensures { IsTrue result → (other : ℕ) → last < other → contains nat_cmp processes.now other ≡ false }
{
    match processes.last() {
        Some(greatest) => *greatest <= last,
        None => true,
    }
}

/// The first of those after a process.
pub(crate) fn first_after(processes: &BTreeSet<u32>, last: u32) -> Option<u32>
    ensures there { IfSome result (λ process. contains nat_cmp processes.now process ≡ true) }
    ensures later { IfSome result (λ process. last < process) }
    ensures least { IfSome result (λ process. (other : ℕ) → last < other → other < process → contains nat_cmp processes.now other ≡ false) }
    ensures none { IfNone result ((other : ℕ) → last < other → contains nat_cmp processes.now other ≡ false) }
{
    if none_after(processes, last) {
        return None;
    }
    processes
        .range((Bound::Excluded(last), Bound::Unbounded))
        .next()
        .copied()
}

pub(crate) fn first(processes: &BTreeSet<u32>) -> Option<u32>
    ensures there { IfSome result (λ process. contains nat_cmp processes.now process ≡ true) }
    ensures least { IfSome result (λ process. (other : ℕ) → other < process → contains nat_cmp processes.now other ≡ false) }
    ensures none { IfNone result ((other : ℕ) → contains nat_cmp processes.now other ≡ false) }
{
    processes.first().copied()
}

/// The first of both.
pub(crate) fn sooner(one: Option<u32>, other: Option<u32>) -> Option<u32>
    ensures { (f g : ℕ → Bool) → IsFirst f one → IsFirst g other → IsFirst (λ q. f q || g q) result }
{
    match one {
        Some(one) => match other {
            Some(other) => { if other < one { Some(other) } else { Some(one) } }
            None => Some(one),
        },
        None => other,
    }
}

pub(crate) fn first_open_after(crowds: &[Opened], last: u32) -> Option<u32>
    ensures { IsFirst (λ q. nat_lt last q && is_open crowds.now q) result }
{
    let mut least = None;
    for crowd in crowds {
        least = sooner(least, first_after(&crowd.processes, last));
    }
    least
}

pub(crate) fn first_open(crowds: &[Opened]) -> Option<u32>
    ensures { IsFirst (is_open crowds.now) result }
{
    let mut least = None;
    for crowd in crowds {
        least = sooner(least, first(&crowd.processes));
    }
    least
}

fn leave(crowd: &mut Opened, process: u32)
    requires { contains nat_cmp crowd.old.processes process ≡ true }
    ensures { LeavesCrowd process crowd.old crowd.new }
{
    crowd.processes.remove(&process);
}

fn is_empty_at(crowds: &Row<Opened>, place: usize) -> bool
    ensures { IsTrue result → HoldsNobody crowds.now place }
{
    match crowds.get(place) {
        Some(crowd) => crowd.processes.is_empty(),
        None => false,
    }
}

/// Lets go of an operation that nobody waits for any more.
fn drop_if_empty(crowds: &mut Row<Opened>, place: usize)
    ensures { StaysOpen crowds.old crowds.new }
{
    if is_empty_at(crowds, place) {
        crowds.remove(place);
    }
}

/// A process isn't asked as one of many any more.
pub(crate) fn take_from(crowds: &mut Row<Opened>, place: usize, process: u32)
    requires { HoldsProcess crowds.old process place }
    ensures { HasLeft process crowds.old crowds.new }
{
    leave(crowds.at_mut(place), process);
    drop_if_empty(crowds, place);
}

/// Where those stand that wait for an operation.
pub(crate) fn place_of(crowds: &[Opened], class: Class) -> Option<usize>
    ensures { IfSome result (HoldsClass crowds.now class) }
{
    crowds.iter().position(|crowd| crowd.class == class)
}

/// Where a process stands.
pub(crate) fn place_with(crowds: &[Opened], process: u32) -> Option<usize>
    ensures some { IfSome result (HoldsProcess crowds.now process) }
    ensures none { IfNone result (is_open crowds.now process ≡ false) }
{
    crowds
        .iter()
        .position(|crowd| crowd.processes.contains(&process))
}
