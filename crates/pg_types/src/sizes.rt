ghost use Rattle.std.specs.Prelude.{◌≡◌};
ghost use Rattle.pg_types.specs.Names as names;

/// Whether a segment of the log may have so many bytes: a power of two from 1 MiB to 1 GiB
/// (`IsValidWalSegSize`, xlog_internal.h).
#[tactic(auto, unfolding(crate::specs::Names::is_segment_size))]
pub fn is_segment_size(size: u32) -> bool
    ensures { result ≡ names.is_segment_size size }
{
    matches!(
        size,
        0x10_0000
            | 0x20_0000
            | 0x40_0000
            | 0x80_0000
            | 0x100_0000
            | 0x200_0000
            | 0x400_0000
            | 0x800_0000
            | 0x1000_0000
            | 0x2000_0000
            | 0x4000_0000
    )
}
