use sr_value::Value;

/// One part of a bracketed list, and how often it stands there.
#[derive(Drop)]
pub struct Piece {
    pub count: u32,
    pub value: Value,
}
