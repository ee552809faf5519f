use sr_ask::{Own, Service};
use sr_code::{Operands, Outs};
use sr_value::Row;

/// What a process holds while it runs.
#[derive(Drop)]
pub struct Frame {
    pub operands: Operands,
    /// How many statements it may still begin before it asks.
    pub ticks: u32,
    /// Its own variables.
    pub own: Row<Option<Own>>,
    /// The invocation that it services.
    pub service: Service,
    /// The invocations of its `co` that are out.
    pub out: Outs,
}
