//! The outside: what the product reads from and writes to, each as a trait with its meaning, a form
//! in memory that tells its contents, one that never fails, and the real object.
#![tactic(auto)]

pub mod archive;
pub mod base;
pub mod faults;
pub mod log;
pub mod memory_files;
pub mod memory_log;
pub mod memory_sink;
pub mod memory_source;
pub mod real;
pub mod sink;
pub mod source;
mod stored;

pub use archive::Archive;
pub use base::BaseDir;
pub use faults::{FaultCount, FaultPlan};
pub use log::LogBytes;
pub use memory_files::{
    MemoryArchive, MemoryBase, MemoryFiles, SteadyArchive, SteadyBase, SteadyFiles,
};
pub use memory_log::{MemoryLog, SteadyLog};
pub use memory_sink::{MemorySink, SteadySink};
pub use memory_source::{MemorySource, SteadySource};
pub use real::{Folder, StdinSource, StdoutSink};
pub use sink::Sink;
pub use source::Source;
