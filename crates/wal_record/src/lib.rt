//! WAL records as bytes, both ways (xlogrecord.h; `DecodeXLogRecord` of xlogreader.c): a header with
//! the record's CRC, the headers of its parts, and their payloads.
#![tactic(auto)]

mod encoding;
mod fields;
mod head;
mod laws;
mod new;
mod parts;
mod types;
mod view;

pub use encoding::encode;
pub use head::decode_head;
pub use laws::{encoded_is_read, read_is_of_bytes, read_is_spelled, spelled_is_read};
pub use new::{NewBlock, NewBlocks, NewImage, NewRecord};
pub use types::{BlockView, ImageView, PrevRule, RecordFault, RecordHead};
pub use view::{RecordShape, RecordView, decode, lend, shape_of};
