ghost use Rattle.pg_types.specs.Bytes.{AreBytes};

use pg_types::Bytes;

/// A file of an archive in memory.
#[derive(Drop)]
pub(crate) struct StoredFile {
    pub(crate) name: Bytes,
    pub(crate) contents: Bytes,
    ghost bytes: { AreBytes contents },
}
