use crate::parts::{Entry, Part};
use crate::slots::Slot;
use crate::work::{Job, first_part, is_of_three};

/// Whether the act of a seat touches a part.
fn touches(seat: u32, index: u64, alone: bool, part: u32) -> bool {
    let first = first_part(seat, index, alone);
    let last = match (alone, is_of_three(index)) {
        (true, _) => first,
        (false, false) => first + 1,
        (false, true) => first + 2,
    };
    first <= part && part <= last
}

/// The first act of a seat, from this one on, that touches the part; or the number of acts.
fn next_act(seat: u32, from: u64, job: Job, part: u32) -> u64 {
    for index in from..job.acts {
        if touches(seat, index, job.alone, part) {
            return index;
        }
    }
    job.acts
}

/// Whether the part's entries of a seat are its acts on the part, each once and in order.
fn has_acts(part: &Part, seat: u32, job: Job) -> bool {
    let mut next = 0u64;
    for entry in part.journal.iter() {
        if entry.seat == seat {
            if entry.index != next_act(seat, next, job, part.number) {
                return false;
            }
            next = entry.index.saturating_add(1);
        }
    }
    next_act(seat, next, job, part.number) == job.acts
}

/// Whether the entries have stamps that ascend, and are of seats from 1 on.
fn ascend(entries: &[Entry], seats: u32) -> bool {
    let mut last = 0;
    for entry in entries {
        if entry.stamp <= last || entry.seat == 0 || seats < entry.seat {
            return false;
        }
        last = entry.stamp;
    }
    true
}

/// Whether a part has all acts on it of so many seats, each once.
fn is_whole(part: &Part, seats: u32, job: Job) -> bool {
    for seat in 0..seats {
        if !has_acts(part, seat + 1, job) {
            return false;
        }
    }
    ascend(part.journal.as_slice(), seats)
}

/// Whether each part lies at its place and has all acts on it of so many seats, each once.
pub fn is_complete(slots: &[Slot], seats: u32, job: Job) -> bool {
    for (place, slot) in slots.iter().enumerate() {
        match slot {
            Slot::Here(part) if part.number as usize == place && is_whole(part, seats, job) => {}
            _ => return false,
        }
    }
    slots.len() == 32
}
