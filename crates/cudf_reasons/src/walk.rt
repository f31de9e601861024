//! The walk from what is asked and kept to all that is brought in, and reasons in the order in which they are reported.
ghost use Rattle.std.specs.Prelude.{◌≡◌, ◌<◌, [], Some, All, IsTrue, IfOk, OnOk, length, map, filter};
ghost use Rattle.std.specs.List.{HoldsAt};
ghost use Rattle.cudf_job.specs.KeyViews.{key_view};
ghost use Rattle.cudf_reasons.specs.Reasons.{brought, walk, with_brought, with_reason, with_reasons};
ghost use Rattle.cudf_reasons.specs.Working.Tables.{reason_at};
ghost use Rattle.cudf_reasons.specs.Working.Walks.{is_root, keys_ascend};

use crate::gathering::{ReasonGroup, Table};
use cudf_job::Key;
use std::alloc::{AllocError, Global};
use std::marker::Model;

/// A walk over the reasons of a table. Contracts see these, and those that were reported, in order.
///
/// A package is followed once, however many reasons name it. So the walk looks a package up each time that it is named, and
/// passes each reason once.
#[derive(Drop)]
pub(crate) struct Walk<'w> {
    table: &'w Table,
    order: Vec<usize>,
    /// Of each reason, whether it was reported.
    is_told: Vec<bool>,
    /// At the first reason that a package brings in: whether all of them were reported.
    is_followed: Vec<bool>,
}

impl<'w> Model for Walk<'w> {
    ghost use Rattle.std.specs.Prelude.{map};
    ghost use Rattle.cudf_reasons.specs.Working.Tables.{reason_at};
    ghost use Rattle.cudf_reasons.specs.Working.Walks.{IsMarked, Progress};

    ghost Value = { Progress };

    ghost view = { λ w. record { core = w.table.now; told = map (reason_at w.table.now) w.order.items } };

    ghost invariant = { λ w. IsMarked w.table.now w.order.items w.is_told.items w.is_followed.items };
}

impl<'w> Walk<'w> {
    /// Nothing is reported yet.
    pub(crate) fn new(alloc: Global, table: &'w Table) -> Result<Self, AllocError>
        requires { IsTrue (keys_ascend table.now) }
        ensures { IfOk result (λ walk. walk ≡ record { core = table.now; told = [] }) }
    {
        let len = table.len();
        let is_told = vec![in alloc; false; len]?;
        let is_followed = vec![in alloc; false; len]?;
        Ok(Walk {
            table,
            order: Vec::new(alloc),
            is_told,
            is_followed,
        })
    }

    /// Reports those that are asked for so, by key.
    pub(crate) fn report_group(&mut self, root: ReasonGroup) -> Result<(), AllocError>
        ensures { OnOk result (self.new ≡ record self.old { told = with_reasons self.old.told (filter (is_root root) self.old.core) }) }
    {
        let table = self.table;
        for index in 0..table.len() {
            if table.is_in_group(root, index) {
                self.tell(index)?;
            }
        }
        Ok(())
    }

    /// Reports all that those bring in that were reported, breadth first.
    pub(crate) fn follow(&mut self) -> Result<(), AllocError>
        ensures { OnOk result (self.new ≡ record self.old { told = walk (length self.old.core) self.old.core 0 self.old.told }) }
    {
        for next in 0..self.is_told.len() {
            if next < self.order.len() {
                let index = self.order[next];
                self.bring(index)?;
            }
        }
        Ok(())
    }

    /// Where those are in the table that were reported, in order.
    pub(crate) fn into_order(self) -> Vec<usize>
        ensures within { All (λ index. index < length self.entry.core) result.items }
        ensures order { map (reason_at self.entry.core) result.items ≡ self.entry.told }
    {
        self.order
    }

    /// Reports what the reason at this index brings in.
    fn bring(&mut self, index: usize) -> Result<(), AllocError>
        requires { index < length self.old.core }
        ensures { OnOk result (self.new ≡ record self.old { told = with_brought self.old.core self.old.told (Some (reason_at self.old.core index)) }) }
    {
        let table = self.table;
        for place in table.named(index) {
            self.follow_package(*place)?;
        }
        Ok(())
    }

    /// Reports what the package at this place brings in, unless it was followed.
    fn follow_package(&mut self, place: u32) -> Result<(), AllocError>
        ensures { OnOk result (self.new ≡ record self.old { told = with_reasons self.old.told (brought self.old.core place) }) }
    {
        let table = self.table;
        let run = table.run_of(place);
        if run.end <= run.start {
            return Ok(());
        }
        if self.is_followed[run.start] {
            return Ok(());
        }
        for index in run.start..run.end {
            self.tell(index)?;
        }
        self.is_followed[run.start] = true;
        Ok(())
    }

    /// Reports the reason at this index, unless it was.
    fn tell(&mut self, index: usize) -> Result<(), AllocError>
        requires { index < length self.old.core }
        ensures { OnOk result (self.new ≡ record self.old { told = with_reason self.old.told (reason_at self.old.core index) }) }
    {
        if !self.is_told[index] {
            self.order.push(index)?;
            self.is_told[index] = true;
        }
        Ok(())
    }
}

/// Instances of rules, one after the other, with the packages that each is met by. Contracts see the list of their keys,
/// each beside those packages' places, from 1.
#[derive(Drop)]
pub struct Reasons {
    pub(crate) table: Table,
    /// Where they are in the table.
    pub(crate) order: Vec<usize>,
}

impl Model for Reasons {
    ghost use Rattle.std.specs.Prelude.{◌<◌, List, All, length, map};
    ghost use Rattle.cudf_reasons.specs.Views.{Told};

    ghost Value = { List Told };

    ghost use Rattle.cudf_reasons.specs.Working.Tables.{told_at};

    ghost view = { λ r. map (told_at r.table) r.order.items };

    ghost invariant = { λ r. All (λ index. index < length r.table) r.order.items };
}

impl Reasons {
    /// How many there are.
    pub fn len(&self) -> usize
        ensures { result ≡ length self.now }
    {
        self.order.len()
    }

    /// The key of the one at this index, from 0.
    pub fn key(&self, index: usize) -> Key
        requires { index < length self.now }
        ensures { HoldsAt (λ told. told.0 ≡ key_view result) self.now index }
    {
        let row = self.order[index];
        self.table.key(row)
    }

    /// The places of the packages that the one at this index, from 0, is met by: ascending, each once.
    pub fn met(&self, index: usize) -> &[u32]
        requires { index < length self.now }
        ensures { HoldsAt (λ told. told.1 ≡ result.now) self.now index }
    {
        let row = self.order[index];
        self.table.met(row)
    }
}
