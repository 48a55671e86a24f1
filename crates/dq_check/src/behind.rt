ghost use Rattle.std.specs.Prelude.{◌≡◌, IfOk};
ghost use Rattle.dq_base.specs.Blends.{blend_of};
ghost use Rattle.dq_check.specs.Fates.{fate_of};
ghost use Rattle.dq_check.specs.Forcing as forcing;

use crate::alone::{alone_forces, reasons_equal};
use crate::due::{Due, Fated, Joining};
use crate::forcing::{Forced, Group, where_so};
use crate::tables::tables_equal;
use dq_base::{Invalid, Memory, Table};
use dq_blend::blend;
use dq_journal::ZoneResult;
use std::alloc::Global;

/// What a blend forces whose first zone may have rows and whose second one is invalid.
fn behind_invalid(
    reason: Invalid,
    shown: &ZoneResult,
    joint: &Joining,
    first: &Table,
    fate: Fated,
    want: &Table,
) -> Group
    ensures { result ≡ forcing.behind_rows joint.now first.now (Some reason) (fate_of fate) want.now shown.now }
{
    match shown {
        ZoneResult::Rows(_) => Group::Refused,
        ZoneResult::Invalid(told) => where_so(
            reasons_equal(*told, reason),
            Group::Both(Forced::Rows, Forced::Free),
        ),
        ZoneResult::BackEnd => Group::Refused,
        ZoneResult::Memory => Group::Both(Forced::Memory, Forced::Free),
    }
}

/// Whether the table is the blend of these two.
fn is_blend(
    alloc: Global,
    table: &Table,
    joint: &Joining,
    first: &Table,
    second: &Table,
) -> Result<bool, Memory>
    ensures { IfOk result (λ is. is ≡ forcing.tables_eq table.now (blend_of first.now second.now joint.now.links joint.now.measures)) }
{
    let blended = blend(alloc, first, second, joint.links(), joint.measures())?;
    Ok(tables_equal(table.as_slice(), blended.as_slice()))
}

/// What a blend forces whose zones may both have rows.
fn behind_answered(
    alloc: Global,
    shown: &ZoneResult,
    joint: &Joining,
    first: &Table,
    want: &Table,
) -> Result<Group, Memory>
    ensures { IfOk result (λ group. group ≡ forcing.behind_rows joint.now first.now None (fate_of Fated.Answered) want.now shown.now) }
{
    match shown {
        ZoneResult::Rows(table) => {
            let is = is_blend(alloc, table, joint, first, want)?;
            Ok(where_so(is, Group::Both(Forced::Rows, Forced::Rows)))
        }
        ZoneResult::Invalid(_) => Ok(Group::Refused),
        ZoneResult::BackEnd => Ok(Group::Refused),
        ZoneResult::Memory => Ok(Group::Both(Forced::Free, Forced::Free)),
    }
}

/// What a blend forces whose first zone may have rows and whose second one's flight failed.
fn behind_failed(shown: &ZoneResult, joint: &Joining, first: &Table, want: &Table) -> Group
    ensures { result ≡ forcing.behind_rows joint.now first.now None (fate_of Fated.Failed) want.now shown.now }
{
    match shown {
        ZoneResult::Rows(_) => Group::Refused,
        ZoneResult::Invalid(_) => Group::Refused,
        ZoneResult::BackEnd => Group::Both(Forced::Rows, Forced::Free),
        ZoneResult::Memory => Group::Both(Forced::Memory, Forced::Free),
    }
}

/// What a blend forces whose first zone may have rows and for whose second one's flight memory was wanting.
fn behind_wanting(shown: &ZoneResult, joint: &Joining, first: &Table, want: &Table) -> Group
    ensures { result ≡ forcing.behind_rows joint.now first.now None (fate_of Fated.Wanting) want.now shown.now }
{
    match shown {
        ZoneResult::Rows(_) => Group::Refused,
        ZoneResult::Invalid(_) => Group::Refused,
        ZoneResult::BackEnd => Group::Refused,
        ZoneResult::Memory => Group::Both(Forced::Free, Forced::Free),
    }
}

/// What a blend forces whose first zone may have rows and whose second one is valid.
fn behind_valid(
    alloc: Global,
    fate: Fated,
    shown: &ZoneResult,
    joint: &Joining,
    first: &Table,
    want: &Table,
) -> Result<Group, Memory>
    ensures { IfOk result (λ group. group ≡ forcing.behind_rows joint.now first.now None (fate_of fate) want.now shown.now) }
{
    match fate {
        Fated::Answered => behind_answered(alloc, shown, joint, first, want),
        Fated::Failed => Ok(behind_failed(shown, joint, first, want)),
        Fated::Wanting => Ok(behind_wanting(shown, joint, first, want)),
    }
}

/// What a blend forces whose first zone may have rows.
fn behind_forces(
    alloc: Global,
    joint: &Joining,
    first: &Table,
    second: &Due,
    shown: &ZoneResult,
) -> Result<Group, Memory>
    ensures { IfOk result (λ group. group ≡ forcing.behind_rows joint.now first.now second.now.reason second.now.fate second.now.want shown.now) }
{
    match second.reason() {
        Some(reason) => Ok(behind_invalid(
            reason,
            shown,
            joint,
            first,
            second.fate(),
            second.want(),
        )),
        None => behind_valid(alloc, second.fate(), shown, joint, first, second.want()),
    }
}

/// Whether a zone's rows may be shown.
fn may_answer(due: &Due) -> bool
    ensures { result ≡ forcing.may_answer due.now.reason due.now.fate }
{
    match due.reason() {
        Some(_) => false,
        None => match due.fate() {
            Fated::Answered => true,
            Fated::Failed => false,
            Fated::Wanting => false,
        },
    }
}

/// What a blend forces whose first zone can have no rows.
fn without_rows(group: Group) -> Group
    ensures { result ≡ forcing.without_rows group }
{
    match group {
        Group::Refused => Group::Refused,
        Group::Alone(forced) => Group::Both(forced, Forced::Free),
        Group::Both(..) => Group::Refused,
    }
}

/// What a blend of these two forces.
pub(crate) fn blended_forces(
    alloc: Global,
    joint: &Joining,
    first: &Due,
    second: &Due,
    shown: &ZoneResult,
) -> Result<Group, Memory>
    ensures { IfOk result (λ group. group ≡ forcing.blended joint.now first.now second.now shown.now) }
{
    if may_answer(first) {
        return behind_forces(alloc, joint, first.want(), second, shown);
    }
    Ok(without_rows(alone_forces(first, shown)))
}
