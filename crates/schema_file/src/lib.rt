//! The file in which the tables are described, in the folder of a base backup.
#![tactic(auto)]

mod file;

pub use file::{SchemaFile, read_tables};
