ghost use Rattle.std.specs.Prelude.{◌≡◌};
ghost use Rattle.pg_types.specs.Numbers.{has_bits};

/// Bits of a record's flags and marks (heapam_xlog.h), and of the tuple's masks that they change.
///
/// The xmax is a multixact (`XLHL_XMAX_IS_MULTI`).
pub const IS_MULTI: u8 = 1;
/// The xmax only locks (`XLHL_XMAX_LOCK_ONLY`).
pub const LOCK_ONLY: u8 = 2;
/// The lock is an exclusive one (`XLHL_XMAX_EXCL_LOCK`).
pub const EXCLUSIVE: u8 = 4;
/// The lock is a key-share one (`XLHL_XMAX_KEYSHR_LOCK`).
pub const KEY_SHARE: u8 = 8;
/// Key columns were changed (`XLHL_KEYS_UPDATED`).
pub const KEYS_UPDATED: u8 = 16;
/// A deleted tuple moved to another partition (`XLH_DELETE_IS_PARTITION_MOVE`).
pub const PARTITION_MOVE: u8 = 0x10;
/// A speculative insertion is taken back (`XLH_DELETE_IS_SUPER`).
pub const TAKEN_BACK: u8 = 0x08;
/// The infomask's bits that a mark clears (`HEAP_XMAX_BITS` and `HEAP_MOVED`).
pub const XMAX_BITS: u16 = 0xDCD0;

/// Whether the flag is set.
pub fn has_bits(flags: u8, flag: u8) -> bool
    ensures { result ≡ has_bits flags flag }
{
    flags & flag != 0
}
