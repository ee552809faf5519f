use sr_ask::Item;
use sr_races::is_too_long;
use sr_value::{NoMemory, Row};
use std::alloc::Global;
use std::test::Fail;

/// How many items a run has, of how many processes in turn, and whether it is too long to be searched. Items of no process
/// are let time pass.
const ROWS: [(u32, u32, bool); 7] = [
    (0, 0, false),
    (65_536, 0, false),
    (65_537, 0, true),
    (65_536, 1_024, false),
    (65_537, 1, true),
    (1_024, 1_025, false),
    (1_025, 1_025, true),
];

fn item(place: u32, actors: u32) -> Item {
    if actors == 0 {
        return Item::Tick { to: place };
    }
    Item::Step {
        actor: place % actors + 1,
        name: 0,
    }
}

fn items(alloc: Global, count: u32, actors: u32) -> Result<Row<Item>, NoMemory> {
    let mut items = Row::new(alloc);
    for place in 0..count {
        items.push(item(place, actors))?;
    }
    Ok(items)
}

fn tried(alloc: Global, count: u32, actors: u32) -> Result<bool, NoMemory> {
    let items = items(alloc, count, actors)?;
    is_too_long(alloc, &items)
}

#[test]
fn how_many_are_too_many(rt: HostRuntime) -> Result<(), Fail> {
    for (count, actors, long) in ROWS {
        assert_eq!(rt; tried(rt.alloc(), count, actors)?, long);
    }
    Ok(())
}
