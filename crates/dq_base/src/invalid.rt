/// Why a query isn't valid, in the order in which the reasons are looked for.
#[derive(Clone, Copy, Debug, PartialEq, Eq)]
pub enum Invalid {
    /// There is no such extract.
    Source,
    /// A column number is out of range.
    Column,
    /// A dimension stands twice.
    RepeatedDim,
    /// A sum, an average or bounds of a text column, or a listed value of the other sort.
    WrongSort,
    /// There is no dimension and no measure.
    NothingShown,
    /// A place of an order key is none of the answer's columns.
    OrderKey,
    /// More than 16 predicates, 512 measures, 64 order keys, or 100,000 items in one test's list.
    TooLong,
}
