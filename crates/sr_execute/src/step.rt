use sr_ask::Request;
use sr_value::Fault;

/// What an instruction leads to.
#[derive(Drop)]
pub enum Step {
    /// The process goes on at an address.
    Goes(usize),
    /// It asks, and an answer leads on.
    Asks(Request),
    /// It has found a fault.
    Faults(Fault),
    /// It has no tick left.
    OverTicks,
}
