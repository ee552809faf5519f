use sr_line::Line;

/// Enough items for three blocks.
const COUNT: u64 = 700;

/// Places from which an item leaves, one after another, and the item that stands there then.
const LEAVING: [(usize, u64); 7] = [
    (300, 300),
    (255, 255),
    (255, 256),
    (0, 0),
    (695, 699),
    (507, 511),
    (507, 512),
];

/// Adds the numbers from 0 on.
fn is_filled(line: &mut Line<u64>) -> bool {
    for number in 0..COUNT {
        if line.reserve().is_err() {
            return false;
        }
        line.push_reserved(number);
    }
    line.len() as u64 == COUNT
}

/// Whether these leave from these places, and none stands at a place past the last.
fn are_taken(line: &mut Line<u64>) -> bool {
    for (place, number) in LEAVING {
        if line.get(place).copied() != Some(number) || line.remove(place) != Some(number) {
            return false;
        }
    }
    line.remove(COUNT as usize).is_none() && line.get(line.len()).is_none()
}

/// Whether all leave from the front in the order in which they came.
fn leave_from_the_front(line: &mut Line<u64>) -> bool {
    for number in 0..COUNT {
        if line.remove(0) != Some(number) {
            return false;
        }
    }
    line.is_empty()
}

/// Whether all leave from the end in the other order.
fn leave_from_the_end(line: &mut Line<u64>) -> bool {
    for left in 0..COUNT {
        let number = COUNT - 1 - left;
        if line.remove(number as usize) != Some(number) {
            return false;
        }
    }
    line.is_empty()
}

fn keeps_items(line: &mut Line<u64>) -> bool {
    is_filled(line)
        && leave_from_the_front(line)
        && is_filled(line)
        && leave_from_the_end(line)
        && is_filled(line)
        && are_taken(line)
}

#[test]
fn items_over_several_blocks(rt: HostRuntime) {
    let mut line = Line::new(rt.alloc());
    let is_kept = keeps_items(&mut line);
    drop(line);
    assert!(rt; is_kept);
}
