//! Laws over the definitions: what is spelled is read, and what is read is spelled.
ghost use Rattle.wal_record.specs.New.{EncodedIsRead};
ghost use Rattle.wal_record.specs.OfBytes.{ReadIsOfBytes};
ghost use Rattle.wal_record.specs.Spelling.{SpelledIsRead, ReadIsSpelled};

/// A record that is spelled as its parts say is read as these parts, at each position to whose rule its
/// link keeps.
pub fn spelled_is_read()
    ensures { SpelledIsRead }
{}

/// Bytes that are read as a record are the spelling of parts, and the record is theirs: nothing else
/// is read.
pub fn read_is_spelled()
    ensures { ReadIsSpelled }
{}

/// A record that is read of bytes has numbers that fit the fields of its headers, and parts that are
/// bytes.
pub fn read_is_of_bytes()
    ensures { ReadIsOfBytes }
{}

/// What `encode` writes is read as the same record, where the manager is known and the link keeps to
/// the rule at the position.
pub fn encoded_is_read()
    ensures { EncodedIsRead }
{}
