ghost use Rattle.std.specs.Prelude.{◌≡◌};
ghost use Rattle.dq_check.specs.Forcing as forcing;

/// What became of a valid zone that may have rows, as far as what is shown tells it.
#[derive(Clone, Copy, Debug, PartialEq, Eq)]
pub(crate) enum Forced {
    /// It may have rows, or memory was wanting; or its outcome is certain anyway.
    Free,
    /// It has rows.
    Rows,
    /// Memory was wanting for it.
    Memory,
}

/// What one outcome that is shown tells of the zones of which it is shown.
#[derive(Clone, Copy, Debug, PartialEq, Eq)]
pub(crate) enum Group {
    /// It can't be shown of them.
    Refused,
    /// It is shown of one zone.
    Alone(Forced),
    /// It is shown of two.
    Both(Forced, Forced),
}

/// Whether the outcome can't be shown.
pub(crate) fn is_refused(group: Group) -> bool
    ensures { result ≡ forcing.is_refused group }
{
    match group {
        Group::Refused => true,
        Group::Alone(_) => false,
        Group::Both(..) => false,
    }
}

/// The group, where a test holds.
pub(crate) fn where_so(holds: bool, group: Group) -> Group
    ensures { result ≡ forcing.where_so holds group }
{
    if holds { group } else { Group::Refused }
}
