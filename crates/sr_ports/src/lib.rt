//! The devices that a run of SR reads from and writes to, as traits with a written meaning.
//!
//! Each device may tell its content, to contracts alone, and counts its faults: the count never falls, a call
//! fails only where it raised the count, and every other answer leaves the count. There are devices in memory,
//! which tell their content and fail by a list, and adapters over the host's files and streams, which tell
//! nothing: that a real file or stream keeps the bytes that passed is not proved. What an adapter says of a call is
//! what the reader gave or the writer took, wherever these know their bytes. Files say which read failed last. A clock
//! tells its calls, and none of them fails.
#![tactic(auto)]

mod clock;
mod fault;
mod files;
mod gate;
mod host_clock;
mod host_files;
mod host_streams;
mod memory_clock;
mod memory_files;
mod memory_streams;
mod room;
mod schedule;
mod sink;
mod slices;
mod source;

pub use clock::{Clock, ClockCall};
pub use fault::{PortFail, TakeFailed};
pub use files::Files;
pub use gate::{FreeGate, Gate, Point};
pub use host_clock::HostClock;
pub use host_files::{FileSink, HostFiles};
pub use host_streams::{HostSink, HostSource};
pub use memory_clock::MemClock;
pub use memory_files::MemFiles;
pub use memory_streams::{MemSink, MemSource};
pub use sink::{Sink, put_all};
pub use source::Source;
