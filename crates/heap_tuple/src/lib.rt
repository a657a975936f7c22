//! One tuple of a heap: its header, what its infomask says of the deleter, and the values of its
//! columns.
#![tactic(auto)]

mod cell;
pub mod infomask;
mod tuple_view;
mod value;
mod values;

pub use cell::{Cell, Column, Kind, Row};
pub use tuple_view::{MaxOf, TupleView, is_lock_only, is_tuple, is_tuple_head};
pub use value::Value;
pub use values::{RowFault, ValueRefusal, fault_in};
