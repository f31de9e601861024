//! The order in which reasons are reported.
ghost use Rattle.std.specs.Prelude.{◌≡◌, ◌<◌, All, IsTrue, IfOk, length, map};
ghost use Rattle.cudf_job.specs.Keys.{never_descend};
ghost use Rattle.cudf_reasons.specs.Laws.{keys_of};
ghost use Rattle.cudf_reasons.specs.Reasons.{in_order, reasons_of};
ghost use Rattle.cudf_reasons.specs.Views.{needed_view, told_as};
ghost use Rattle.cudf_reasons.specs.Working.Tables.{reason_at};
ghost use Rattle.cudf_reasons.specs.Working.Walks.{keys_ascend};

use crate::gathering::{NeededClause, ReasonGroup, Table, tabulate};
use crate::walk::{Reasons, Walk};
use std::alloc::{AllocError, Global};

/// The instances of the needed CNF clauses, in the order in which they are reported: those of the request that are met by none,
/// then those of `keep`, each by key; then, breadth first, those of `depends` and `conflicts` of the packages that they
/// name positively, package by package and by key; then what is left, by key. Each is reported once. Own.
///
/// The clauses come by key: those of one instance are one after the other. The only error is that memory is refused.
pub fn order_reasons(alloc: Global, needed: &[NeededClause<'_>]) -> Result<Reasons, AllocError>
    requires { IsTrue (never_descend (keys_of (map needed_view needed.now))) }
    ensures { IfOk result (λ reasons. reasons ≡ map told_as (reasons_of (map needed_view needed.now))) }
{
    let table = tabulate(alloc, needed)?;
    let order = order_of(alloc, &table)?;
    Ok(Reasons { table, order })
}

/// Where the reasons are in the table, in the order in which they are reported.
fn order_of(alloc: Global, table: &Table) -> Result<Vec<usize>, AllocError>
    requires { IsTrue (keys_ascend table.now) }
    ensures within { IfOk result (λ order. All (λ index. index < length table.now) order.items) }
    ensures order { IfOk result (λ order. map (reason_at table.now) order.items ≡ in_order table.now) }
{
    let mut walk = Walk::new(alloc, table)?;
    walk.report_group(ReasonGroup::Asked)?;
    walk.report_group(ReasonGroup::Kept)?;
    walk.follow()?;
    walk.report_group(ReasonGroup::Any)?;
    Ok(walk.into_order())
}
