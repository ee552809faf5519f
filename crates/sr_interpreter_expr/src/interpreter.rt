use sr_ask::{Answer, Out, Own, Service};
use sr_value::Row;

/// How far the process has come.
#[derive(Drop)]
pub struct Interpreter {
    /// The statements that it may still begin before it asks.
    pub ticks: u32,
    /// The answers that it hasn't used, the next one last.
    pub answers: Row<Answer>,
    /// Its own variables.
    pub own: Row<Option<Own>>,
    /// The invocation that it services.
    pub service: Service,
    /// The invocations of its `co` that are out.
    pub out: Row<Out>,
}
