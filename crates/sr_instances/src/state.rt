/// How far an instance has come.
#[derive(Clone, Copy, PartialEq, Eq)]
pub enum State {
    /// Its initial code runs.
    Starting,
    /// Its initial code has ended.
    Ready,
    /// Its final code runs.
    Closing,
    /// It has ended.
    Gone,
}
