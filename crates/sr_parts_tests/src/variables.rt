use sr_in_place::{fit, put};
use sr_store::Blocks;
use sr_value::{Compare, Shape, Value};
use std::alloc::Global;

/// Whether an int fits its place and is put there.
fn is_put(place: &mut Value) -> bool {
    fit(&Shape::Int, place).is_ok()
        && put(&Shape::Int, place, &[], Value::Int(7)).is_ok()
        && place.same(&Value::Int(7))
}

#[test]
fn stores_in_place(rt: HostRuntime) {
    let is_put = is_put(&mut Value::Int(0));
    assert!(rt; is_put);
}

/// Whether a variable of the block holds a number.
fn holds(blocks: &Blocks, var: u32, number: i32) -> bool {
    match blocks.load(2, var, &[]) {
        Ok(value) => value.same(&Value::Int(number)),
        Err(_) => false,
    }
}

fn is_declared(blocks: &mut Blocks) -> bool {
    blocks.declare(2, 0, &Shape::Int).is_ok()
        && blocks.store(2, 0, &[], Value::Int(7)).is_ok()
        && holds(blocks, 0, 7)
}

fn is_placed(blocks: &mut Blocks) -> bool {
    if blocks.reserve(2).is_err() {
        return false;
    }
    blocks.place(2, 1, Shape::Int, Value::Int(8));
    holds(blocks, 1, 8)
}

fn is_copied(alloc: Global, blocks: &Blocks) -> bool {
    match blocks.copy(alloc) {
        Ok(copy) => holds(&copy, 1, 8),
        Err(_) => false,
    }
}

#[test]
fn shared_variables(rt: HostRuntime) {
    let mut blocks = Blocks::new(rt.alloc());
    let is_kept = is_declared(&mut blocks)
        && is_placed(&mut blocks)
        && is_copied(rt.alloc(), &blocks);
    drop(blocks);
    assert!(rt; is_kept);
}
