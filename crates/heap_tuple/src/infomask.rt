/// Bits of a tuple header's `t_infomask` (htup_details.h).
///
/// The tuple has nulls, and a bitmap of them behind its header.
pub const HAS_NULL: u16 = 0x0001;
/// The tuple has a value of variable width.
pub const HAS_VARWIDTH: u16 = 0x0002;
/// The tuple has a value that is stored outside it.
pub const HAS_EXTERNAL: u16 = 0x0004;
/// The lock is a key-share one, unless `LOCK_EXCLUSIVE` is set too.
pub const LOCK_KEY_SHARE: u16 = 0x0010;
/// The lock is an exclusive one, unless `LOCK_KEY_SHARE` is set too.
pub const LOCK_EXCLUSIVE: u16 = 0x0040;
/// The xmax only locked the tuple.
pub const LOCK_ONLY: u16 = 0x0080;
/// The inserter is known to be committed.
pub const XMIN_COMMITTED: u16 = 0x0100;
/// The inserter is known not to be committed; with `XMIN_COMMITTED` the tuple is frozen.
pub const XMIN_INVALID: u16 = 0x0200;
/// The deleter is known to be committed.
pub const XMAX_COMMITTED: u16 = 0x0400;
/// There is no deleter, or it is known not to be committed.
pub const XMAX_INVALID: u16 = 0x0800;
/// The xmax is the id of a multixact.
pub const XMAX_IS_MULTI: u16 = 0x1000;

/// Bits of a tuple header's `t_infomask2` (htup_details.h).
///
/// The number of the tuple's columns.
pub const COLUMNS_MASK: u16 = 0x07FF;
/// The update or delete changed or took away a key.
pub const KEYS_UPDATED: u16 = 0x2000;
/// A newer version stands on the same page.
pub const HOT_UPDATED: u16 = 0x4000;
/// No index names this version.
pub const HEAP_ONLY: u16 = 0x8000;
