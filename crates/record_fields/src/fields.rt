ghost use Rattle.std.specs.Prelude.{◌≡◌, ◌+◌, ◌≤◌, length};
ghost use Rattle.std.specs.Int.{cast_signed, w32, w64};
ghost use Rattle.pg_types.specs.Numbers.{number_at};
ghost use Rattle.record_fields.specs.Fields.{lsn_at, tli_at, xid_at, locator_at};

use pg_types::{Locator, Lsn, Tli, Xid, u32_at, u64_at};

/// A position of eight bytes.
pub fn lsn_at(text: &[u8], at: usize) -> Lsn
    requires { at + 8 ≤ length text.now }
    ensures { result ≡ lsn_at text.now at }
{
    Lsn(u64_at(text, at))
}

/// A timeline of four bytes.
pub fn tli_at(text: &[u8], at: usize) -> Tli
    requires { at + 4 ≤ length text.now }
    ensures { result ≡ tli_at text.now at }
{
    Tli(u32_at(text, at))
}

/// A transaction id of four bytes.
pub fn xid_at(text: &[u8], at: usize) -> Xid
    requires { at + 4 ≤ length text.now }
    ensures { result ≡ xid_at text.now at }
{
    Xid(u64::from(u32_at(text, at)))
}

/// A file of three numbers of four bytes: its tablespace, its database and its own.
pub fn locator_at(text: &[u8], at: usize) -> Locator
    requires { at + 12 ≤ length text.now }
    ensures { result ≡ locator_at text.now at }
{
    Locator {
        space: u32_at(text, at),
        db: u32_at(text, at + 4),
        rel: u32_at(text, at + 8),
    }
}

/// A signed number of four bytes.
pub fn i32_at(text: &[u8], at: usize) -> i32
    requires { at + 4 ≤ length text.now }
    ensures { result ≡ cast_signed w32 (number_at 4 text.now at) }
{
    u32_at(text, at).cast_signed()
}

/// A signed number of eight bytes.
pub fn i64_at(text: &[u8], at: usize) -> i64
    requires { at + 8 ≤ length text.now }
    ensures { result ≡ cast_signed w64 (number_at 8 text.now at) }
{
    u64_at(text, at).cast_signed()
}
