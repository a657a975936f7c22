ghost use Rattle.std.specs.Prelude.{◌≡◌, option_map};
ghost use Rattle.wal_record.specs.Views.{block_of_view};
ghost use Rattle.typed_records.specs.Fields.{main_block};

use wal_record::{BlockView, RecordView};

/// The block with this id, if the record has one, of the main fork.
pub fn main_block<'a>(view: &RecordView<'a>, id: u8) -> Option<BlockView<'a>>
    ensures { option_map (λ block. block_of_view id block) result ≡ main_block id view.now }
{
    match view.block(id) {
        Some(block) if block.fork == 0 => Some(block),
        _ => None,
    }
}
