/// How much of the input was taken.
#[derive(Clone, Copy)]
pub(crate) struct Intake {
    /// How many bytes.
    pub taken: u32,
    /// Whether the input said that there are no more.
    pub ended: bool,
}
