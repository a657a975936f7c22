//! That the numbers of a record fit their fields is a law of reading bytes.
#![tactic(auto)]

ghost use Rattle.record_numbers.specs.Laws.{NumbersFit, ToldNumbersFit, TypedFits};

/// The typed form of a record whose parts are bytes has numbers that fit their fields, and images and
/// tuples that are bytes.
pub fn typed_fits()
    ensures { TypedFits }
{}

/// So has that of a record that is read of bytes, at whatever position and after whatever record.
pub fn numbers_fit()
    ensures { NumbersFit }
{
    wal_record::read_is_of_bytes();
    typed_fits();
}

/// So has that of a record that a reader finds in a log of which bytes are told.
pub fn told_numbers_fit()
    ensures { ToldNumbersFit }
{
    wal_record::read_is_of_bytes();
    typed_fits();
}
