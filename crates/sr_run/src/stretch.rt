/// The items that the workers made between two plain steps: `count` items after the first `from`.
#[derive(Clone, Copy, Debug, PartialEq, Eq)]
pub struct Stretch {
    pub from: u32,
    pub count: u32,
}
