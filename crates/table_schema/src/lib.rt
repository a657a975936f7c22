//! The description of the tables that a standby serves: a TOML text that names a database, and its tables
//! with their files and columns, as they would be read of `pg_class`, `pg_attribute` and `pg_attrdef`.
#![tactic(auto)]

mod columns;
mod description;
mod fault;
mod laws;
mod look_up;
mod members;
mod name;
mod row_text;
mod tables;
mod tuple_text;

pub use description::read_schema;
pub use fault::{Key, SchemaFault};
pub use laws::{one_description, refusals_are_named, tables_are_apart};
pub use name::Name;
pub use tables::Tables;
pub use tuple_text::print_tuple;
