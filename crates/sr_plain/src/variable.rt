/// A shared variable of a block.
#[derive(Clone, Copy, PartialEq, Eq, Hash)]
pub struct Variable {
    pub block: u32,
    /// Its number in the component.
    pub var: u32,
}
