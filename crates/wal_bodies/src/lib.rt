//! WAL records in typed form: what the main data and the blocks of a record say, by its resource
//! manager and its info (xlogrecord.h; the record structs of each manager, as heapam_xlog.h).
#![tactic(auto)]

mod heap;
mod multixact;
mod rec;
mod removals;
mod running;
mod storage;
mod tuples;
mod typed;
mod xact;
mod xlog;

pub use rec::one_form;
pub use record_fields::{
    FreezePlan, FreezePlans, Lines, Locators, LockEntries, LockEntry, Member, Members, RecBytes,
    Redirect, Redirects, Xids,
};
pub use typed::body;
pub use typed_records::{
    BodyFault, NewTuple, NewTuples, Rec, RecBlock, RecBlocks, RecImage, RecKind, What,
};
