/// How much a cache holds: so many entries, or answers of so many cells together.
#[derive(Clone, Copy, Debug, PartialEq, Eq)]
pub enum Bound {
    Entries(u32),
    Cells(u32),
}
