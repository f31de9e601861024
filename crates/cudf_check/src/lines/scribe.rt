//! Prints a page of the listing: the lines of violated instances, each with what is added to it, where lines are explained.
ghost use Rattle.std.specs.Prelude.{◌≡◌, ◌≤◌, ◌+◌, ◌++◌, codes, take, length, slice_get, option_map};
ghost use Rattle.std.specs.List.{flat_map};
ghost use Rattle.cudf_index.specs.Promises.Prices.{digits};
ghost use Rattle.cudf_device.specs.Promises.PaperInside.{Says, has_failed};
ghost use Rattle.cudf_job.specs.Keys.{key_text};
ghost use Rattle.cudf_job.specs.KeyViews.{key_view};
ghost use Rattle.cudf_referee.specs.Promises.Pages.{behind, at_instance, calls, cost_along, page_price};
ghost use Rattle.cudf_referee.specs.Promises.Stops.{cost_between};
ghost use Rattle.cudf_referee.specs.Promises.Walks.{left};
ghost use Rattle.cudf_check.specs.Report.{line, instance_line, check_text};
ghost use Rattle.cudf_check.specs.Working.Named.{instance_style};
ghost use Rattle.cudf_check.specs.Working.Pages.{Ascends, IsEnded, IsSpent, listed, more_behind, page_size};

use crate::lines::explanation::print_explained;
use crate::lines::instance::{package_at, print_instance, print_key};
use crate::lines::naming::StanzaLines;
use crate::naming::Origins;
use cudf_device::{Paper, Sink};
use cudf_referee::{Explainer, Instance, Instances, Key, Referee};
use std::alloc::{AllocError, Global};
use std::marker::Model;

/// Prints what a referee finds. Contracts see what is judged, whether lines are explained, the files that they name, and
/// the lines of the solution's stanzas.
#[derive(Drop)]
pub(crate) struct Scribe<'r, 'p, 't> {
    referee: &'r Referee<'p, 't>,
    explainer: Option<Explainer<'r, 'p, 't>>,
    origins: Origins<'r>,
    /// For each package of the problem the line of the solution's first stanza of it, where lines are explained.
    lines: &'r [Option<u64>],
}

impl<'r, 'p, 't> Model for Scribe<'r, 'p, 't> {
    ghost use Rattle.std.specs.Prelude.{◌≡◌, is_some, IfSome};
    ghost use Rattle.cudf_check.specs.Working.Named.{origins_view};
    ghost use Rattle.cudf_check.specs.Working.Scribes.{Wording};

    ghost Value = { Wording };

    ghost view = { λ s. record { judged = s.referee.now; explain = is_some s.explainer; origins = origins_view s.origins; lines = s.lines.now } };

    ghost invariant = { λ s. IfSome s.explainer (λ e. e ≡ s.referee.now) };
}

impl<'r, 'p, 't> Scribe<'r, 'p, 't> {
    ghost use Rattle.std.specs.Prelude.{◌≡◌, IfOk};
    ghost use Rattle.cudf_referee.specs.Promises.Views.{instance_view};
    ghost use Rattle.cudf_check.specs.Explanations.{met_added};
    ghost use Rattle.cudf_check.specs.Report.{instance_line};
    ghost use Rattle.cudf_check.specs.Working.Named.{instance_style, listed_by, origins_view};
    ghost use Rattle.cudf_device.specs.Promises.PaperInside.{Says};

    /// The scribe of a referee. Memory for what is added to lines is taken here.
    ///
    /// # Errors
    ///
    /// `AllocError` where that is refused.
    pub(crate) fn new(
        alloc: Global,
        referee: &'r Referee<'p, 't>,
        explain: bool,
        origins: Origins<'r>,
        lines: &'r [Option<u64>],
    ) -> Result<Self, AllocError>
        ensures { IfOk result (λ s. s ≡ record { judged = referee.entry.now; explain = explain; origins = origins_view origins.entry; lines = lines.entry.now }) }
    {
        if !explain {
            return Ok(Scribe {
                referee,
                explainer: None,
                origins,
                lines,
            });
        }
        let explainer = Explainer::new(alloc, referee)?;
        Ok(Scribe {
            referee,
            explainer: Some(explainer),
            origins,
            lines,
        })
    }

    /// The referee.
    pub(crate) fn referee(&self) -> &'r Referee<'p, 't>
        ensures { result.now ≡ self.now.judged }
    {
        self.referee
    }

    /// Prints the line of an instance.
    pub(crate) fn print_line<W: Sink>(&self, paper: &mut Paper<'_, W>, instance: &Instance<'_>)
        ensures { Says W.state paper.old paper.new (instance_line (instance_style self.now.explain self.now.origins self.now.lines) self.now.judged (instance_view instance.now)) }
    {
        let referee = self.referee;
        let place = referee.met_by(instance);
        let met = package_at(referee.packages(), place);
        let origin = self.origins.of(instance.key.part());
        print_instance(paper, origin, instance, met);
        self.print_added(paper, instance, place);
        paper.text("\n");
    }

    /// Prints what the problem and the statuses say beside an instance, where lines are explained. The package at this
    /// place meets its entry.
    fn print_added<W: Sink>(
        &self,
        paper: &mut Paper<'_, W>,
        instance: &Instance<'_>,
        met: Option<u64>,
    )
        ensures { Says W.state paper.old paper.new (met_added self.now.explain (listed_by self.now.origins.solution self.now.lines) self.now.judged (instance_view instance.now) met) }
    {
        if let Some(explainer) = &self.explainer {
            let listed = StanzaLines {
                origin: self.origins.solution,
                lines: self.lines,
            };
            print_explained(paper, explainer, listed, instance, met);
        }
    }
}

/// The walk over the violated instances with greater keys than `after`, over all of them where it isn't given.
fn walk_after<'r, 'p, 't>(scribe: &Scribe<'r, 'p, 't>, after: Option<Key>) -> Instances<'r, 'p, 't>
    ensures judged { result.judged ≡ scribe.entry.now.judged }
    ensures position { result.position ≡ behind (option_map key_view after) }
    ensures price { result.steps ≤ digits (length scribe.entry.now.judged.unknown) }
{
    let referee = scribe.referee();
    match after {
        Some(key) => referee.after(key),
        None => referee.instances(),
    }
}

/// Prints the lines of all instances that are left. Where a write has failed, the walk goes no further.
fn print_rest<W: Sink>(
    paper: &mut Paper<'_, W>,
    scribe: &Scribe<'_, '_, '_>,
    instances: &mut Instances<'_, '_, '_>,
)
    ensures printed { Says W.state paper.old paper.new (flat_map (instance_line (instance_style scribe.entry.now.explain scribe.entry.now.origins scribe.entry.now.lines) scribe.entry.now.judged) (left instances.old)) }
    ensures price { instances.new.steps ≤ instances.old.steps
        + cost_along instances.old.judged instances.old.position (calls (left instances.old) (length (left instances.old))) }
{
    while let Some(instance) = instances.next() {
        scribe.print_line(paper, &instance);
        if paper.has_failed() {
            return;
        }
    }
}

/// Prints the lines of the first instances that are left, at most `limit`. Answers the key of the last
/// one, where there are so many; if not, the walk is at its end, or a write has failed.
fn print_first<W: Sink>(
    paper: &mut Paper<'_, W>,
    scribe: &Scribe<'_, '_, '_>,
    instances: &mut Instances<'_, '_, '_>,
    limit: u64,
) -> Option<Key>
    ensures printed { Says W.state paper.old paper.new (flat_map (instance_line (instance_style scribe.entry.now.explain scribe.entry.now.origins scribe.entry.now.lines) scribe.entry.now.judged) (take limit (left instances.old))) }
    ensures end { IsEnded limit (left instances.old) (left instances.new) result (has_failed paper.new) }
    ensures spent { IsSpent limit instances.old instances.new result }
    ensures price { instances.new.steps ≤ instances.old.steps
        + cost_along instances.old.judged instances.old.position (calls (left instances.old) limit) }
{
    let mut last = None;
    for turn in 0..limit { // for the prover: the invariant names it
        match instances.next() {
            Some(instance) => {
                scribe.print_line(paper, &instance);
                if paper.has_failed() {
                    return None;
                }
                last = Some(instance.key);
            }
            None => return None,
        }
    }
    last
}

/// Prints the key after which the next page begins.
fn print_more<W: Sink>(paper: &mut Paper<'_, W>, key: Key)
    ensures { Says W.state paper.old paper.new (line (codes "more after " ++ key_text (key_view key))) }
{
    paper.text("more after ");
    print_key(paper, key);
    paper.text("\n");
}

/// Prints where the next page begins, where an instance is left after the last one of this page.
fn print_next<W: Sink>(paper: &mut Paper<'_, W>, instances: &mut Instances<'_, '_, '_>, last: Key)
    ensures printed { Says W.state paper.old paper.new (more_behind (left instances.old) (key_view last)) }
    ensures price { instances.new.steps ≤ instances.old.steps
        + cost_between instances.old.judged instances.old.position (at_instance (slice_get (left instances.old) 0)) }
{
    match instances.next() {
        Some(_) => print_more(paper, last),
        None => {}
    }
}

/// Prints the page: the instances after the key `after`, where it is given, and at most `limit` of
/// them; and where the next page begins, for which the walk is asked once more. Gives back the walk that it made,
/// too: that counted the steps.
pub(crate) fn print_page<'r, 'p, 't, W: Sink>(
    paper: &mut Paper<'_, W>,
    scribe: &Scribe<'r, 'p, 't>,
    after: Option<Key>,
    limit: Option<u64>,
) -> Instances<'r, 'p, 't>
    requires ascending { Ascends scribe.now.judged }
    ensures printed { Says W.state paper.old paper.new (check_text (instance_style scribe.entry.now.explain scribe.entry.now.origins scribe.entry.now.lines) (option_map key_view after) limit scribe.entry.now.judged) }
    ensures price { result.steps ≤ page_price scribe.entry.now.judged (option_map key_view after)
        (page_size limit (listed (option_map key_view after) scribe.entry.now.judged)) }
{
    let mut instances = walk_after(scribe, after);
    let Some(limit) = limit else {
        print_rest(paper, scribe, &mut instances);
        return instances;
    };
    match print_first(paper, scribe, &mut instances, limit) {
        Some(last) => {
            print_next(paper, &mut instances, last);
            instances
        }
        None => instances,
    }
}
