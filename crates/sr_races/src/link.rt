/// How an item is linked to a later one.
#[derive(Clone, Copy, Debug, PartialEq, Eq)]
pub enum LinkKind {
    /// The next item of the same process.
    Next,
    /// The process that it made makes its first item.
    Makes,
    /// The invocation that came with it is serviced.
    Services,
    /// The reply that it made is taken.
    Answers,
    /// The instance that became ready by it is asked for as a global.
    Readies,
    /// The later item ends all, and begins main's final code.
    Ends,
    /// It has ended all itself, and begun main's final code.
    Begins,
}
