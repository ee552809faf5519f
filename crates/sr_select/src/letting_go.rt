//! Takes a value from a function that may end early. Its type is left open, so that no end looks into it.

/// Drops a value.
pub fn let_go<T: Drop>(_value: T) {}
