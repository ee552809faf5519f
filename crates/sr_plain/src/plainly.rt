use sr_ask::Item;
use sr_value::Text;
use sr_world::End;

/// What a step of the engine came to.
#[derive(Drop)]
pub enum Plainly {
    /// An item was made, and this text was written.
    Stepped { item: Item, output: Text },
    /// Whose turn it is waits for bytes of the input.
    Wants,
    /// Whose turn it is, the process of this number, is over its ticks.
    Over(u32),
    /// The item ends the run.
    Ended { item: Item, end: End },
}
