use heap_tuple::Row;
use pg_types::List;

/// The values of rows, in order.
pub type Rows = List<Row>;

/// How the rows of a block end: with its last line; before a line whose row has a value that is stored
/// elsewhere or compressed, or one that is not as described; before a line that shows a multixact that
/// is not known; or there is no such page. Lines are numbered from 1, columns from 0.
#[derive(Clone, Copy)]
pub enum BlockEnd {
    Whole,
    Toasted { line: u16, column: u16 },
    Bad { line: u16, column: u16 },
    Unknown { line: u16, id: u32 },
    NoPage,
}

/// The rows of a block that a snapshot sees, in the order of their lines, up to the first line that is
/// refused, and how they end.
#[derive(Drop)]
pub struct BlockRows {
    pub rows: Rows,
    pub end: BlockEnd,
}
