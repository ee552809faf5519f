use sr_ask::SharedNumbers;
use sr_value::{Compare, Duplicate, NoMemory};
use std::alloc::Global;

/// Enough numbers for two blocks and more.
const COUNT: u32 = 2500;

/// Places from which a number leaves, one after another, and the number that stands there then.
const LEAVING: [(usize, u32); 6] = [
    (2300, 2300),
    (1024, 1024),
    (1023, 1023),
    (0, 0),
    (0, 1),
    (2494, 2499),
];

/// The numbers from 0 on.
fn filled(alloc: Global) -> Result<SharedNumbers, NoMemory> {
    let mut numbers = SharedNumbers::new(alloc);
    for number in 0..COUNT {
        numbers.push(alloc, number)?;
    }
    Ok(numbers)
}

/// Whether these leave from these places, and aren't there then.
fn are_taken(alloc: Global, numbers: &mut SharedNumbers) -> bool {
    for (place, number) in LEAVING {
        if numbers.position(number) != Some(place)
            || numbers.get(place) != Some(number)
            || place >= numbers.len()
            || numbers.remove(alloc, place).is_err()
            || numbers.contains(number)
        {
            return false;
        }
    }
    numbers.len() == 2494
}

/// Whether all that are left leave from the front.
fn leave_from_the_front(alloc: Global, numbers: &mut SharedNumbers) -> bool {
    for _ in 0..numbers.len() {
        if numbers.len() == 0 || numbers.remove(alloc, 0).is_err() {
            return false;
        }
    }
    numbers.get(0).is_none()
}

/// Whether numbers leave one copy and stay in the other.
fn stay_in_the_copy(alloc: Global) -> bool {
    let Ok(mut numbers) = filled(alloc) else {
        return false;
    };
    let Ok(copy) = numbers.copy(alloc) else {
        return false;
    };
    numbers.same(&copy)
        && are_taken(alloc, &mut numbers)
        && !numbers.same(&copy)
        && copy.len() == 2500
        && copy.get(1024) == Some(1024)
        && leave_from_the_front(alloc, &mut numbers)
}

#[test]
fn shared_numbers(rt: HostRuntime) {
    let are_right = stay_in_the_copy(rt.alloc());
    assert!(rt; are_right);
}
