//! The fields of a record's main data and of a block's data, and the lists of them that are read where
//! they stand in the record.
#![tactic(auto)]

mod entries;
mod fields;
mod lists;
mod members;

pub use entries::{
    FreezePlan, FreezePlans, Locators, LockEntries, LockEntry, Redirect, Redirects, planned_lines,
};
pub use fields::{i32_at, i64_at, locator_at, lsn_at, tli_at, xid_at};
pub use lists::{Lines, RecBytes, Xids};
pub use members::{Member, Members};
