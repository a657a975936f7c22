use thiserror::Error;

/// The bytes of a block of a heap.
pub type Page = [u8; 8192];

/// A full-page image: the bytes of a block without its hole, which is zeros and stands at `hole_at`
/// (`RestoreBlockImage`, xlogreader.c).
#[derive(Clone, Copy)]
pub struct PageImage<'a> {
    pub hole_at: u16,
    pub bytes: &'a [u8],
}

/// What stands at a line of a page (`ItemIdData`, itemid.h). A redirect names another line.
#[derive(Clone, Copy)]
pub enum Item<'a> {
    Unused,
    Normal(&'a [u8]),
    Redirect(u16),
    Dead,
}

/// What a line may become without a tuple.
#[derive(Clone, Copy)]
pub enum LineState {
    Unused,
    Redirect(u16),
    Dead,
}

/// Why a change of a page is refused. The page is then as before.
#[derive(Clone, Copy, Debug, Error)]
pub enum PageError {
    /// The page has no room for the tuple, however its tuples stand.
    #[error("the page is full")]
    Full,
    /// The line is not free where a tuple goes, or not in use where one is changed.
    #[error("the line is not free, or not in use")]
    NoLine,
    /// The tuple or the page would break its rule.
    #[error("the page or the tuple breaks its rule")]
    BadPage,
}
