use pg_types::Lsn;
use std::fmt;

/// Shows bytes, two lower-case hex digits each, and none as `-`.
#[derive(Drop)]
pub struct ShowHex<'a>(pub &'a [u8]);

impl<'a> fmt::Display for ShowHex<'a> {
    fn fmt<W: fmt::Write>(&self, f: &mut fmt::Formatter<W>) -> fmt::Result {
        if self.0.is_empty() {
            return write!(f, "-");
        }
        for byte in self.0 {
            write!(f, "{byte:02x}")?;
        }
        Ok(())
    }
}

/// Shows a position as `16/B374D848`.
#[derive(Clone, Copy)]
pub struct ShowPosition(pub Lsn);

impl fmt::Display for ShowPosition {
    fn fmt<W: fmt::Write>(&self, f: &mut fmt::Formatter<W>) -> fmt::Result {
        let high = self.0.0 >> 32;
        let low = self.0.0 & 0xFFFF_FFFF;
        write!(f, "{high:X}/{low:X}")
    }
}
