//! The records that these benchmarks read: XLOG noops and heap inserts, some with a page image, in a fixed mix
//! of about 200 bytes a record.

ghost use Rattle.std.specs.Prelude.{◌≡◌, ◌<◌, ◌≤◌, ◌^◌, IfOk, IfSome, IsTrue, length};
ghost use Rattle.wal_record.specs.New.{IsNew, is_page_image};

use pg_types::{Bytes, Locator, Lsn, NoMemory, Xid};
use std::alloc::Global;
use wal_record::{NewBlock, NewBlocks, NewImage, NewRecord, encode};

/// What payloads and images are cut from.
const FILL: [u8; 4096] = [0x5A; 4096];

/// Appends the record of this number in the mix: the first of 64 is an insert with a page image of 4096
/// bytes, one in four others is a noop with 40 bytes, the rest are inserts of 20 to 147 bytes.
pub fn append(alloc: Global, number: u64, prev: Lsn, out: &mut Vec<u8>) -> Result<(), NoMemory> {
    let rec = sample(alloc, number, prev)?;
    encode(alloc, &rec, out)
}

fn sample(alloc: Global, number: u64, prev: Lsn) -> Result<NewRecord, NoMemory>
    ensures { IfOk result (λ rec. IsNew rec) }
{
    if number % 64 == 0 {
        with_image(alloc, prev)
    } else if number % 4 == 1 {
        noop(alloc, prev)
    } else {
        insert(alloc, prev, 20 + (number % 128) as usize)
    }
}

fn noop(alloc: Global, prev: Lsn) -> Result<NewRecord, NoMemory>
    ensures { IfOk result (λ rec. IsNew rec) }
{
    Ok(NewRecord {
        xid: Xid(0),
        prev,
        info: 0x20,
        manager: 0,
        blocks: NewBlocks::new(alloc),
        main: Bytes::from_slice(alloc, &FILL[..40])?,
    })
}

fn insert(alloc: Global, prev: Lsn, size: usize) -> Result<NewRecord, NoMemory>
    requires { size < 1024 }
    ensures { IfOk result (λ rec. IsNew rec) }
{
    let payload = Bytes::from_slice(alloc, &FILL[..size])?;
    one_block(alloc, prev, None, payload)
}

fn with_image(alloc: Global, prev: Lsn) -> Result<NewRecord, NoMemory>
    ensures { IfOk result (λ rec. IsNew rec) }
{
    let image = NewImage {
        apply: true,
        hole_at: 512,
        bytes: Bytes::from_slice(alloc, &FILL)?,
    };
    one_block(alloc, prev, Some(image), Bytes::from_slice(alloc, &[])?)
}

fn one_block(
    alloc: Global,
    prev: Lsn,
    image: Option<NewImage>,
    payload: Bytes,
) -> Result<NewRecord, NoMemory>
    requires image { IfSome image (λ image. IsTrue (is_page_image image) × (length image.bytes ≤ 8192)) }
    requires payload { length payload < 1024 }
    ensures { IfOk result (λ rec. IsNew rec) }
{
    let block = NewBlock {
        id: 0,
        locator: Locator {
            space: 1663,
            db: 16384,
            rel: 16385,
        },
        fork: 0,
        block: 0,
        will_init: false,
        image,
        payload,
    };
    let mut blocks = NewBlocks::new(alloc);
    blocks.push(block)?;
    Ok(NewRecord {
        xid: Xid(700),
        prev,
        info: 0,
        manager: 10,
        blocks,
        main: Bytes::from_slice(alloc, b"\x01\0\0")?,
    })
}
