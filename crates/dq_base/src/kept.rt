/// What became of an answer that was offered to a cache.
#[derive(Clone, Copy, Debug, PartialEq, Eq)]
pub enum Kept {
    /// It stands at the front.
    Kept,
    /// Its query has a top.
    Topped,
    /// It has more than 65,536 cells.
    TooLarge,
    /// Its extract has been published again.
    Stale,
    /// Memory was wanting.
    Memory,
}
