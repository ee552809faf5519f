use sr_value::{Row, Value};

/// A reply that was taken.
#[derive(Debug, Drop)]
pub struct Taken {
    /// The invocation that it answers.
    pub id: u32,
    pub results: Option<Row<Value>>,
}

/// What reading one item of input gives.
#[derive(Debug, Drop)]
pub enum InputItem {
    Value(Value),
    /// The next token isn't of the kind that was asked for.
    NotOfKind,
    /// The input has ended.
    NoMore,
}

/// An invocation that was chosen.
#[derive(Debug, Drop)]
pub struct Pick {
    pub id: u32,
    /// The arm that services it, counted from 0.
    pub arm: u32,
    pub args: Row<Value>,
    /// Its caller, or 0 where nobody waits.
    pub back: u32,
}

/// What a `Select` leads to.
#[derive(Debug, Drop)]
pub enum Selection {
    Service(Pick),
    /// The `else` block.
    Otherwise,
}
