/// From which cells of a held row a count or a sum is read: from one that shows it, or, where the values are those of the
/// key, from the key's cell and that of the rows. Places count from 0.
#[derive(Clone, Copy, Debug, PartialEq, Eq)]
pub enum Part {
    Shown(u64),
    Keyed(u64, u64),
}

/// From which cells of a group's held rows a measure is derived. Places count from 0.
#[derive(Clone, Copy, Debug, PartialEq, Eq)]
pub enum Source {
    Count(Part),
    Sum(Part),
    Least(u64),
    Greatest(u64),
    Different(u64),
    Average(Part, Part),
}
