ghost use Rattle.std.specs.Prelude.{◌≡◌, ◌∷◌, [], ◌-◌, ◌<◌, ◌-ℤ◌, IsTrue, MatchOption, MatchResult};
ghost use Rattle.sr_core.specs.Values.{steps_within, values_by, values_of};
ghost use Rattle.sr_code.specs.Numbers.{number_from};
ghost use Rattle.sr_value.specs.Operators.{is_int};

use sr_core::Direction;
use sr_value::{Duplicate, Fault, NoMemory};
use std::alloc::Global;
use std::marker::Model;

/// The values that a quantifier has still to take. Contracts see them as a list.
#[derive(Drop)]
pub struct Numbers {
    direction: Direction,
    next: i32,
    by: u32,
    /// How many are left: a quantifier may have 2^32 values.
    count: u64,
}

impl Model for Numbers {
    ghost use Rattle.std.specs.Prelude.{List, ℤ};
    ghost use Rattle.std.specs.Coded.{coded_list, coded_ℤ};
    ghost use Rattle.sr_code.specs.Numbers.{AllFit, numbers_from};

    ghost Value = { List ℤ };

    ghost coded = { coded_list coded_ℤ };

    ghost view = { λ numbers. numbers_from numbers.direction numbers.next numbers.by numbers.count };

    ghost invariant = { λ numbers. AllFit numbers.direction numbers.next numbers.by numbers.count };
}

impl Numbers {
    /// The values from `from` to `to`. A step below 1 is E6.
    pub fn new(direction: Direction, from: i32, to: i32, by: i32) -> Result<Numbers, Fault>
        ensures { MatchResult result (λ numbers. values_of direction from to by ≡ Ok numbers) (λ fault. values_of direction from to by ≡ Err fault) }
    {
        if by < 1 {
            return Err(Fault::Range);
        }
        let step = by as u32;
        Ok(match direction {
            Direction::Up => Numbers::up(from, to, step),
            Direction::Down => Numbers::down(from, to, step),
        })
    }

    fn up(from: i32, to: i32, by: u32) -> Numbers
        requires { 0 < by }
        ensures { result ≡ values_by Direction.Up from to (by - 1) }
    {
        Numbers {
            direction: Direction::Up,
            next: from,
            by,
            count: count_of(from, to, by),
        }
    }

    fn down(from: i32, to: i32, by: u32) -> Numbers
        requires { 0 < by }
        ensures { result ≡ values_by Direction.Down from to (by - 1) }
    {
        Numbers {
            direction: Direction::Down,
            next: from,
            by,
            count: count_of(to, from, by),
        }
    }

    /// Takes the next value, where one is left.
    pub fn next(&mut self) -> Option<i32>
        ensures { MatchOption result ((self.old ≡ []) × (self.new ≡ [])) (λ n. self.old ≡ n ∷ self.new) }
    {
        if self.count == 0 {
            return None;
        }
        let value = self.next;
        let left = self.count - 1;
        if left > 0 {
            self.next = further(self.direction, value, self.by);
        }
        self.count = left;
        Some(value)
    }
}

/// How many values there are from `from` up to `to`.
fn count_of(from: i32, to: i32, step: u32) -> u64
    requires { 0 < step }
    ensures { result ≡ steps_within (to -ℤ from) (step - 1) }
{
    if to < from {
        0
    } else {
        u64::from(to.abs_diff(from) / step) + 1
    }
}

/// The value a step further, which is an int.
fn further(direction: Direction, value: i32, by: u32) -> i32
    requires { IsTrue (is_int (number_from direction value by)) }
    ensures { result ≡ number_from direction value by }
{
    match direction {
        Direction::Up => (i64::from(value) + i64::from(by)) as i32,
        Direction::Down => (i64::from(value) - i64::from(by)) as i32,
    }
}

impl Duplicate for Numbers {
    fn copy(&self, _alloc: Global) -> Result<Numbers, NoMemory> {
        Ok(Numbers {
            direction: self.direction,
            next: self.next,
            by: self.by,
            count: self.count,
        })
    }
}
