ghost use Rattle.std.specs.Prelude.{◌≡◌};
ghost use Rattle.dq_check.specs.Fates.{fate_of};
ghost use Rattle.dq_check.specs.Forcing as forcing;

use crate::due::{Due, Fated};
use crate::forcing::{Forced, Group, where_so};
use crate::tables::tables_equal;
use dq_base::{Invalid, Table};
use dq_journal::ZoneResult;

/// A number for each reason.
fn reason_place(reason: Invalid) -> u8
    ensures { result ≡ forcing.reason_place reason }
{
    match reason {
        Invalid::Source => 0,
        Invalid::Column => 1,
        Invalid::RepeatedDim => 2,
        Invalid::WrongSort => 3,
        Invalid::NothingShown => 4,
        Invalid::OrderKey => 5,
        Invalid::TooLong => 6,
    }
}

/// Whether the reasons are the same.
pub(crate) fn reasons_equal(a: Invalid, b: Invalid) -> bool
    ensures { result ≡ forcing.reason_eq a b }
{
    reason_place(a) == reason_place(b)
}

/// What is forced where an invalid zone is shown alone.
fn invalid_forces(reason: Invalid, shown: &ZoneResult, fate: Fated, want: &Table) -> Group
    ensures { result ≡ forcing.alone_forces (Some reason) (fate_of fate) want.now shown.now }
{
    match shown {
        ZoneResult::Rows(_) => Group::Refused,
        ZoneResult::Invalid(told) => where_so(
            reasons_equal(*told, reason),
            Group::Alone(Forced::Free),
        ),
        ZoneResult::BackEnd => Group::Refused,
        ZoneResult::Memory => Group::Refused,
    }
}

/// What is forced where a zone that has its answer, unless memory is wanting, is shown alone.
fn answered_forces(shown: &ZoneResult, want: &Table) -> Group
    ensures { result ≡ forcing.alone_forces None (fate_of Fated.Answered) want.now shown.now }
{
    match shown {
        ZoneResult::Rows(table) => {
            where_so(
                tables_equal(table.as_slice(), want.as_slice()),
                Group::Alone(Forced::Rows),
            )
        }
        ZoneResult::Invalid(_) => Group::Refused,
        ZoneResult::BackEnd => Group::Refused,
        ZoneResult::Memory => Group::Alone(Forced::Memory),
    }
}

/// What is forced where a zone whose flight failed is shown alone.
fn failed_forces(shown: &ZoneResult, want: &Table) -> Group
    ensures { result ≡ forcing.alone_forces None (fate_of Fated.Failed) want.now shown.now }
{
    match shown {
        ZoneResult::Rows(_) => Group::Refused,
        ZoneResult::Invalid(_) => Group::Refused,
        ZoneResult::BackEnd => Group::Alone(Forced::Free),
        ZoneResult::Memory => Group::Refused,
    }
}

/// What is forced where a zone for whose flight memory was wanting is shown alone.
fn wanting_forces(shown: &ZoneResult, want: &Table) -> Group
    ensures { result ≡ forcing.alone_forces None (fate_of Fated.Wanting) want.now shown.now }
{
    match shown {
        ZoneResult::Rows(_) => Group::Refused,
        ZoneResult::Invalid(_) => Group::Refused,
        ZoneResult::BackEnd => Group::Refused,
        ZoneResult::Memory => Group::Alone(Forced::Free),
    }
}

/// What is forced where a valid zone of that fate is shown alone.
fn valid_forces(fate: Fated, shown: &ZoneResult, want: &Table) -> Group
    ensures { result ≡ forcing.alone_forces None (fate_of fate) want.now shown.now }
{
    match fate {
        Fated::Answered => answered_forces(shown, want),
        Fated::Failed => failed_forces(shown, want),
        Fated::Wanting => wanting_forces(shown, want),
    }
}

/// What is forced where a zone is shown alone.
pub(crate) fn alone_forces(due: &Due, shown: &ZoneResult) -> Group
    ensures { result ≡ forcing.alone due.now shown.now }
{
    match due.reason() {
        Some(reason) => invalid_forces(reason, shown, due.fate(), due.want()),
        None => valid_forces(due.fate(), shown, due.want()),
    }
}
