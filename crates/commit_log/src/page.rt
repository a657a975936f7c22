ghost use Rattle.std.specs.Prelude.{◌≡◌, ℕ, ◌+◌, ◌*◌, ◌/◌, ◌%◌, ◌^◌, ◌<◌, ◌==◌, max, IfOk, if◌then◌else◌};
ghost use Rattle.pg_types.specs.declared.status.Status.{Status};
ghost use Rattle.commit_log.specs.Packed.{bits_of, status_of_bits};
ghost use Rattle.commit_log.specs.Log.{page_status};

use pg_types::{Lsn, Status};
use std::alloc::{AllocError, Global};

/// Bytes of a page, four statuses each (`BLCKSZ`).
const PAGE_BYTES: usize = 8192;

/// A page of the commit log: 32768 statuses, and the greatest position at which one was set.
#[derive(Drop)]
pub struct StatusPage {
    bytes: Box<[u8; PAGE_BYTES]>,
    changed: Lsn,
}

impl StatusPage {
    /// A page without statuses.
    pub fn blank(alloc: Global) -> Result<StatusPage, AllocError>
        ensures statuses { IfOk result (λ page. (n : ℕ) → page_status page n ≡ Status.None) }
        ensures changed { IfOk result (λ page. page.changed.0 ≡ 0) }
    {
        let bytes = Box::new(alloc, [0u8; PAGE_BYTES])?;
        Ok(StatusPage {
            bytes,
            changed: Lsn(0),
        })
    }

    /// The status at place `n` of the page.
    pub fn get(&self, n: usize) -> Status
        requires { n < 32768 }
        ensures { result ≡ page_status self.now n }
    {
        let byte = self.bytes[n / 4];
        status_from(byte >> (2 * (n % 4)) & 3)
    }

    /// Sets the status at place `n`, at a position of the log.
    pub fn set(&mut self, n: usize, status: Status, at: Lsn)
        requires { n < 32768 }
        ensures statuses { (m : ℕ) → page_status self.new m ≡ (if m == n then status else page_status self.old m) }
        ensures changed { self.new.changed.0 ≡ max self.old.changed.0 at.0 }
    {
        let bytes: &mut [u8; PAGE_BYTES] = &mut self.bytes;
        bytes[n / 4] = with_bits(bytes[n / 4], n % 4, bits_from(status));
        self.changed = Lsn(self.changed.0.max(at.0));
    }
}

/// The status that two bits tell.
fn status_from(bits: u8) -> Status
    ensures { result ≡ status_of_bits bits }
{
    match bits {
        1 => Status::Committed,
        2 => Status::Aborted,
        3 => Status::Sub,
        _ => Status::None,
    }
}

/// The two bits of a status.
fn bits_from(status: Status) -> u8
    ensures { result ≡ bits_of status }
{
    match status {
        Status::None => 0,
        Status::Committed => 1,
        Status::Aborted => 2,
        Status::Sub => 3,
    }
}

/// The byte with two bits at one of its four places.
fn with_bits(byte: u8, place: usize, bits: u8) -> u8
    requires in_byte { place < 4 }
    requires two { bits < 4 }
    ensures { (m : ℕ) → m < 4 → result / 2 ^ (2 * m) % 4 ≡ (if m == place then bits else byte / 2 ^ (2 * m) % 4) }
{
    let shift = 2 * place;
    byte & !(3 << shift) | bits << shift
}
