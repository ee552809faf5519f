use sr_ask::{SharedNumbers, Start};
use sr_calls::Held;
use sr_queue::Pending;
use sr_value::{Owner, Row, Sel, Shape, Value};

/// A change of one part, with all that it takes, so that making it takes no memory.
#[derive(Drop)]
pub enum Change {
    Declare {
        block: u32,
        var: u32,
        shape: Shape,
        value: Value,
    },
    Store {
        block: u32,
        var: u32,
        path: Row<Sel>,
        value: Value,
    },
    /// An invocation arrives.
    Arrive {
        invocation: Pending,
    },
    /// An invocation isn't pending any more.
    Depart {
        owner: Owner,
        op: u32,
        id: u32,
    },
    /// A process holds an invocation from now on, or holds one no longer.
    Hold {
        process: u32,
        held: Held,
    },
    Free {
        process: u32,
        id: u32,
    },
    /// A process gets a reply, if it lives.
    Answer {
        process: u32,
        id: u32,
        results: Option<Row<Value>>,
    },
    /// A process takes its earliest reply to one of these invocations.
    Take {
        process: u32,
        ids: SharedNumbers,
    },
    Begin {
        start: Start,
    },
    End {
        process: u32,
    },
}
