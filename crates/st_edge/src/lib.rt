//! The outside of the database: what gives bytes, what takes them, and a disk.
//!
//! Three traits say what a call on the outside does. Each form counts the calls that failed, so
//! that a fault further up can name its cause.
#![tactic(auto)]

mod disk;
mod failed;
mod faultless_disk;
mod faultless_sink;
mod faultless_source;
mod faults;
mod file_disk;
mod front;
mod memory_sink;
mod memory_source;
mod placed;
mod schedule;
mod sink;
mod source;
mod stdin_source;
mod stdout_sink;

pub use disk::Disk;
pub use failed::Failed;
pub use faultless_disk::FaultlessDisk;
pub use faultless_sink::FaultlessSink;
pub use faultless_source::FaultlessSource;
pub use file_disk::FileDisk;
pub use memory_sink::MemorySink;
pub use memory_source::MemorySource;
pub use sink::{Sink, write_all};
pub use source::Source;
pub use stdin_source::StdinSource;
pub use stdout_sink::StdoutSink;
