ghost use Rattle.std.specs.Prelude.{◌≡◌};
ghost use Rattle.wal_bodies.specs.Fields.{needed_number, behind, result_map};
ghost use Rattle.wal_bodies.specs.Kinds.{time_from, xinfo_from, behind_database, count_from, counted_xids, subs_from, counted_files, files_from, parts_by, assignment, ended, xact_kind};

use pg_types::{Xid, u32_at};
use record_fields::{Locators, Xids, i64_at};
use typed_records::{BodyFault, RecKind, What};

/// The kinds of a transaction's records.
#[tactic(auto, unfolding(crate::specs::Kinds::xact_kind))]
pub(crate) fn xact_kind<'a>(info: u8, main: &'a [u8]) -> Result<RecKind<'a>, BodyFault>
    ensures { result ≡ xact_kind info main.now }
{
    match info & 0x70 {
        0x00 | 0x20 => ended(info, main),
        0x50 => assignment(main),
        0x10 | 0x30 | 0x40 => Err(BodyFault::Unsupported(What::Prepared)),
        _ => Ok(RecKind::Other),
    }
}

/// The end of a transaction.
#[tactic(auto, unfolding(crate::specs::Kinds::ended))]
fn ended<'a>(info: u8, main: &'a [u8]) -> Result<RecKind<'a>, BodyFault>
    ensures { result ≡ ended info main.now }
{
    let (time, rest) = time_from(main)?;
    let (xinfo, rest) = xinfo_from(info, rest)?;
    let (xids, files) = parts_by(xinfo, rest)?;
    Ok(RecKind::Ended {
        time,
        xinfo,
        xids,
        files,
    })
}

/// Subtransactions that are assigned to a top-level transaction.
#[tactic(auto, unfolding(crate::specs::Kinds::assignment))]
fn assignment<'a>(main: &'a [u8]) -> Result<RecKind<'a>, BodyFault>
    ensures { result ≡ assignment main.now }
{
    let (top, rest) = u32_in_front(main)?;
    let (xids, _) = counted_xids(rest)?;
    Ok(RecKind::Assignment {
        top: Xid(top as u64),
        xids,
    })
}

#[tactic(auto, unfolding(crate::specs::Kinds::time_from, crate::specs::Fields::needed_number, wal_record::specs::Parts::number_from))]
fn time_from(text: &[u8]) -> Result<(i64, &[u8]), BodyFault>
    ensures { result_map (λ x. (x.0, x.1.now)) result ≡ time_from text.now }
{
    if text.len() < 8 {
        return Err(BodyFault::Length);
    }
    let (_, rest) = text.split_at(8);
    Ok((i64_at(text, 0), rest))
}

/// Further parts are told where the info's highest bit is set.
#[tactic(auto, unfolding(crate::specs::Kinds::xinfo_from))]
fn xinfo_from(info: u8, text: &[u8]) -> Result<(u32, &[u8]), BodyFault>
    ensures { result_map (λ x. (x.0, x.1.now)) result ≡ xinfo_from info text.now }
{
    if info & 0x80 == 0 {
        return Ok((0, text));
    }
    u32_in_front(text)
}

/// A number of four bytes, and what stands behind it.
#[tactic(auto, unfolding(crate::specs::Fields::needed_number, wal_record::specs::Parts::number_from))]
fn u32_in_front(text: &[u8]) -> Result<(u32, &[u8]), BodyFault>
    ensures { result_map (λ x. (x.0, x.1.now)) result ≡ needed_number 4 text.now }
{
    if text.len() < 4 {
        return Err(BodyFault::Length);
    }
    let (_, rest) = text.split_at(4);
    Ok((u32_at(text, 0), rest))
}

/// The subtransactions and the dropped files, by the parts that xinfo tells. What stands behind them is not read.
#[tactic(auto, unfolding(crate::specs::Kinds::parts_by))]
fn parts_by<'a>(xinfo: u32, text: &'a [u8]) -> Result<(Xids<'a>, Locators<'a>), BodyFault>
    ensures { result ≡ parts_by xinfo text.now }
{
    let rest = behind_database(xinfo, text)?;
    let (xids, rest) = subs_from(xinfo, rest)?;
    let files = files_from(xinfo, rest)?;
    Ok((xids, files))
}

/// The database and its tablespace are passed over.
#[tactic(auto, unfolding(crate::specs::Kinds::behind_database, crate::specs::Fields::behind))]
fn behind_database(xinfo: u32, text: &[u8]) -> Result<&[u8], BodyFault>
    ensures { result_map (λ x. x.now) result ≡ behind_database xinfo text.now }
{
    if xinfo & 0x01 == 0 {
        return Ok(text);
    }
    if text.len() < 8 {
        return Err(BodyFault::Length);
    }
    let (_, rest) = text.split_at(8);
    Ok(rest)
}

#[tactic(auto, unfolding(crate::specs::Kinds::subs_from))]
fn subs_from<'a>(xinfo: u32, text: &'a [u8]) -> Result<(Xids<'a>, &'a [u8]), BodyFault>
    ensures { result_map (λ x. (x.0, x.1.now)) result ≡ subs_from xinfo text.now }
{
    if xinfo & 0x02 == 0 {
        return Ok((Xids::none(), text));
    }
    counted_xids(text)
}

#[tactic(auto, unfolding(crate::specs::Kinds::files_from))]
fn files_from<'a>(xinfo: u32, text: &'a [u8]) -> Result<Locators<'a>, BodyFault>
    ensures { result ≡ files_from xinfo text.now }
{
    if xinfo & 0x04 == 0 {
        return Ok(Locators::none());
    }
    counted_files(text)
}

/// A count that is not below 0, and what stands behind it.
#[tactic(auto, unfolding(crate::specs::Kinds::count_from))]
pub(crate) fn count_from(text: &[u8]) -> Result<(u32, &[u8]), BodyFault>
    ensures { result_map (λ x. (x.0, x.1.now)) result ≡ count_from text.now }
{
    let (count, rest) = u32_in_front(text)?;
    if 0x8000_0000 <= count {
        return Err(BodyFault::Length);
    }
    Ok((count, rest))
}

/// A count, as many transaction ids, and what stands behind them.
#[tactic(auto, unfolding(crate::specs::Kinds::counted_xids))]
fn counted_xids<'a>(text: &'a [u8]) -> Result<(Xids<'a>, &'a [u8]), BodyFault>
    ensures { result_map (λ x. (x.0, x.1.now)) result ≡ counted_xids text.now }
{
    let (count, rest) = count_from(text)?;
    let count = count as usize;
    if rest.len() < 4 * count {
        return Err(BodyFault::Length);
    }
    let (_, behind) = rest.split_at(4 * count);
    Ok((Xids::new(rest, 0, count), behind))
}

/// A count, and as many files.
#[tactic(auto, unfolding(crate::specs::Kinds::counted_files))]
fn counted_files<'a>(text: &'a [u8]) -> Result<Locators<'a>, BodyFault>
    ensures { result ≡ counted_files text.now }
{
    let (count, rest) = count_from(text)?;
    let count = count as usize;
    if rest.len() < 12 * count {
        return Err(BodyFault::Length);
    }
    Ok(Locators::new(rest, count))
}
