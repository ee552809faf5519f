/// How a statement ends.
#[derive(Clone, Copy)]
pub enum Ending {
    /// What follows it comes next.
    Through,
    /// `exit` leaves the innermost `do`, `fa` or `co`.
    Left,
    /// `next` begins the next turn of the innermost `do`, `fa` or `co`.
    Turned,
    /// `return` ends the innermost service, or the proc, initial code or final code.
    Returned,
}
