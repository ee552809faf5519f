use sr_ask::SharedNumbers;
use sr_calls::Calls;
use std::alloc::Global;

/// Whether process 1 holds an invocation until it releases it.
fn is_held(calls: &mut Calls) -> bool {
    calls.reserve(1).is_ok()
        && calls.hold(1, 20, 6, 60).is_ok()
        && calls.holding(1, 20).is_some()
        && calls.release(1, 20) == Some((6, 60))
}

/// Whether process 1 gets a reply that it waits for.
fn is_answered(calls: &mut Calls, ids: &SharedNumbers) -> bool {
    calls.answer(1, 20, None).is_ok() && calls.has_reply(1, ids) && calls.take(1, ids).is_some()
}

/// Whether replies to a process that is forgotten are gone.
fn is_forgotten(calls: &mut Calls, ids: &SharedNumbers) -> bool {
    let is_answered = calls.answer(1, 20, None).is_ok();
    calls.forget(1);
    is_answered && !calls.has_reply(1, ids)
}

fn are_answered(alloc: Global, calls: &mut Calls) -> bool {
    match SharedNumbers::one(alloc, 20) {
        Ok(ids) => is_answered(calls, &ids) && is_forgotten(calls, &ids),
        Err(_) => false,
    }
}

#[test]
fn held_invocations_and_replies(rt: HostRuntime) {
    let mut calls = Calls::new(rt.alloc());
    let is_kept = is_held(&mut calls) && are_answered(rt.alloc(), &mut calls);
    drop(calls);
    assert!(rt; is_kept);
}
