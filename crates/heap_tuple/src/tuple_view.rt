ghost use Rattle.std.specs.Prelude.{◌≡◌, ◌↔◌, ◌≤◌, ◌-◌, drop, IsSome, IfSome, IsTrue, length};
ghost use Rattle.pg_types.specs.Numbers.{number_at};
ghost use Rattle.heap_tuple.specs.Tuple.{xmin_of, xmax_of, cid_of, ctid_block_of, ctid_line_of, infomask2_of, infomask_of, hoff_of, columns_of, is_tuple, is_tuple_head, IsTuple, is_lock_only, least_hoff, max_of};

use crate::infomask;
use pg_types::{Place, Xid, u16_at, u32_at};
use std::marker::Model;

/// The deleter that a tuple shows, apart from marks. An xmax that only locks is no deleter.
#[derive(Clone, Copy)]
pub enum MaxOf {
    None,
    Xid(Xid),
    Multi(u32),
}

/// A tuple over the bytes of its line: the header of 23 bytes, the bitmap of nulls, the user data.
/// Numbers are little-endian (`HeapTupleHeaderData`, htup_details.h). Contracts see it as its bytes.
#[derive(Drop)]
pub struct TupleView<'a> {
    bytes: &'a [u8],
}

impl<'a> Model for TupleView<'a> {
    ghost use Rattle.std.specs.Prelude.{ℕ, List, ◌≤◌, length};
    ghost use Rattle.heap_tuple.specs.Tuple.{IsTuple, hoff_of};

    ghost Value = { List ℕ };

    ghost view = { λ t. t.bytes.now };

    ghost invariant = { λ t. IsTuple t.bytes.now × (24 ≤ length t.bytes.now)
        × (hoff_of t.bytes.now ≤ length t.bytes.now) };
}

/// Whether the bytes are a tuple: its user data begins at a multiple of 8, behind the header and the
/// bitmap of nulls, and not past the end.
#[tactic(auto, using(std::proofs::lemmas::Bool::Decides::nat_tests), unfolding(crate::specs::Tuple::is_tuple, crate::specs::Tuple::is_tuple_head))]
pub fn is_tuple(bytes: &[u8]) -> bool
    ensures value { result ≡ is_tuple bytes.now }
    ensures header_fits { IsTrue result → 24 ≤ length bytes.now }
    ensures inside { IsTrue result → hoff_of bytes.now ≤ length bytes.now }
{
    if bytes.len() < 24 {
        return false;
    }
    is_tuple_head(bytes, bytes.len())
}

/// Whether a tuple of `len` bytes may begin with this header.
#[tactic(auto, using(std::proofs::lemmas::Bool::Decides::nat_tests), unfolding(crate::specs::Tuple::is_tuple_head))]
pub fn is_tuple_head(head: &[u8], len: usize) -> bool
    requires { 23 ≤ length head.now }
    ensures { result ≡ is_tuple_head head.now len }
{
    let hoff = head[22] as usize;
    if hoff % 8 != 0 {
        return false;
    }
    if hoff < 24 {
        return false;
    }
    if hoff < least_hoff(head) {
        return false;
    }
    hoff <= len
}

/// Behind the header of 23 bytes and, where the tuple has nulls, a bit for each of its columns.
#[tactic(auto, using(std::proofs::lemmas::Bool::Decides::nat_tests))]
fn least_hoff(bytes: &[u8]) -> usize
    requires { 23 ≤ length bytes.now }
    ensures { result ≡ least_hoff bytes.now }
{
    if u16_at(bytes, 20) & infomask::HAS_NULL == 0 {
        return 23;
    }
    let columns = (u16_at(bytes, 18) & infomask::COLUMNS_MASK) as usize;
    23 + (columns + 7) / 8
}

/// Whether an infomask says that the xmax is only a lock.
#[tactic(auto, unfolding(crate::specs::Tuple::is_lock_only))]
pub fn is_lock_only(mask: u16) -> bool
    ensures { result ≡ is_lock_only mask }
{
    let lock = infomask::XMAX_IS_MULTI | infomask::LOCK_EXCLUSIVE | infomask::LOCK_KEY_SHARE;
    mask & infomask::LOCK_ONLY != 0 || mask & lock == infomask::LOCK_EXCLUSIVE
}

impl<'a> TupleView<'a> {
    /// `None` exactly where the bytes are no tuple.
    pub fn read(bytes: &'a [u8]) -> Option<TupleView<'a>>
        ensures tuple { IsSome result ↔ IsTuple bytes.now }
        ensures bytes { IfSome result (λ t. t ≡ bytes.now) }
    {
        if is_tuple(bytes) {
            Some(TupleView { bytes })
        } else {
            None
        }
    }

    /// The bytes of the tuple, which are one.
    pub fn bytes(&self) -> &'a [u8]
        ensures value { result.now ≡ self.now }
        ensures tuple { IsTuple self.now }
        ensures header_fits { 24 ≤ length self.now }
    {
        self.bytes
    }

    /// The inserting transaction.
    pub fn xmin(&self) -> Xid
        ensures { result.0 ≡ xmin_of self.now }
    {
        Xid(u64::from(u32_at(self.bytes, 0)))
    }

    /// The deleting or locking transaction, or a multixact.
    pub fn xmax(&self) -> u32
        ensures { result ≡ xmax_of self.now }
    {
        u32_at(self.bytes, 4)
    }

    /// The command id.
    pub fn cid(&self) -> u32
        ensures { result ≡ cid_of self.now }
    {
        u32_at(self.bytes, 8)
    }

    /// The place that the tuple names as its newer version, its own where it has none.
    pub fn ctid(&self) -> Place
        ensures block { result.block ≡ ctid_block_of self.now }
        ensures line { result.line ≡ ctid_line_of self.now }
    {
        let high = u32::from(u16_at(self.bytes, 12));
        let low = u32::from(u16_at(self.bytes, 14));
        Place {
            block: high * 65536 + low,
            line: u16_at(self.bytes, 16),
        }
    }

    pub fn infomask2(&self) -> u16
        ensures { result ≡ infomask2_of self.now }
    {
        u16_at(self.bytes, 18)
    }

    pub fn infomask(&self) -> u16
        ensures { result ≡ infomask_of self.now }
    {
        u16_at(self.bytes, 20)
    }

    /// Where the user data begins.
    pub fn hoff(&self) -> u8
        ensures { result ≡ hoff_of self.now }
    {
        self.bytes[22]
    }

    /// The bytes of the values, from `hoff` on.
    pub fn user_data(&self) -> &'a [u8]
        ensures value { result.now ≡ drop (hoff_of self.now) self.now }
        ensures len { length result.now ≡ length self.now - hoff_of self.now }
    {
        &self.bytes[self.bytes[22] as usize..]
    }

    /// The number of columns that the tuple has.
    pub fn columns(&self) -> u16
        ensures { result ≡ columns_of self.now }
    {
        self.infomask2() & infomask::COLUMNS_MASK
    }

    /// The deleter that the tuple shows apart from marks: a lock or an xmax of 0 is none.
    #[tactic(auto, using(std::proofs::lemmas::Bool::Decides::nat_tests), unfolding(crate::specs::Tuple::max_of))]
    pub fn max_of(&self) -> MaxOf
        ensures { result ≡ max_of self.now }
    {
        let mask = self.infomask();
        let xmax = self.xmax();
        if is_lock_only(mask) || xmax == 0 {
            return MaxOf::None;
        }
        if mask & infomask::XMAX_IS_MULTI != 0 {
            return MaxOf::Multi(xmax);
        }
        MaxOf::Xid(Xid(u64::from(xmax)))
    }
}
