use sr_queue::{MOST_PENDING, Pending, Queue};
use sr_value::{Owner, Row};
use std::alloc::Global;

const OWNER: Owner = Owner::Inst(3);

/// Adds an invocation of an operation.
fn is_added(alloc: Global, queue: &mut Queue, id: u32, op: u32) -> bool {
    if queue.len() as usize >= MOST_PENDING || queue.reserve().is_err() {
        return false;
    }
    let pending = Pending {
        id,
        op,
        owner: OWNER,
        args: Row::new(alloc),
        back: 0,
        back_id: 0,
    };
    queue.push(pending).is_ok()
}

/// Whether a copy begins with an invocation of an operation.
fn is_copied(alloc: Global, queue: &Queue, op: u32) -> bool {
    match queue.copy(alloc) {
        Ok(copy) => copy.len() > 0 && copy.at(0).is_of(OWNER, op),
        Err(_) => false,
    }
}

/// Whether the oldest invocation, which goes out, has a number.
fn is_oldest(queue: &mut Queue, id: u32) -> bool {
    queue.len() > 0 && queue.remove_at(0).id == id
}

fn keeps_two(alloc: Global, queue: &mut Queue) -> bool {
    is_added(alloc, queue, 11, 7)
        && is_added(alloc, queue, 12, 8)
        && queue.count(OWNER, 8) == 1
        && queue.next_of(OWNER, 8, 0) == Some(1)
        && is_copied(alloc, queue, 7)
        && is_oldest(queue, 11)
        && is_oldest(queue, 12)
}

#[test]
fn pending_invocations(rt: HostRuntime) {
    let mut queue = Queue::new(rt.alloc());
    let is_kept = keeps_two(rt.alloc(), &mut queue);
    drop(queue);
    assert!(rt; is_kept);
}

/// Whether an operation is found far from the front, after an invocation before it went out.
fn finds_over_blocks(alloc: Global, queue: &mut Queue) -> bool {
    for id in 0..600 {
        let op = if id == 500 { 8 } else { 7 };
        if !is_added(alloc, queue, id, op) {
            return false;
        }
    }
    queue.len() > 300
        && queue.remove_at(300).id == 300
        && queue.next_of(OWNER, 8, 0) == Some(499)
        && queue.next_of(OWNER, 7, 499) == Some(500)
        && queue.count(OWNER, 7) == 598
}

#[test]
fn many_pending_invocations(rt: HostRuntime) {
    let mut queue = Queue::new(rt.alloc());
    let is_found = finds_over_blocks(rt.alloc(), &mut queue);
    drop(queue);
    assert!(rt; is_found);
}
