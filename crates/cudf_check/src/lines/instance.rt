//! Prints the parts of an instance, and keys.
ghost use Rattle.std.specs.Prelude.{◌≡◌, ◌++◌, Some, map, option_map, option_and_then};
ghost use Rattle.cudf_value.specs.Promises.Views.{vpkg_view, atom_view, clause_view};
ghost use Rattle.cudf_value.specs.Printing.{vpkg_text, atom_text, clause_text};
ghost use Rattle.cudf_problem.specs.Promises.Views.{package_view};
ghost use Rattle.cudf_problem.specs.Universe.{PlainProblem, package_at};
ghost use Rattle.cudf_job.specs.Keys.{key_text, part_row, aspect_row};
ghost use Rattle.cudf_job.specs.KeyViews.{key_view};
ghost use Rattle.cudf_referee.specs.Promises.Views.{instance_view, what_view};
ghost use Rattle.cudf_check.specs.Report.{meeting_text, met_text, upgrade_text, what_text, subject_text};
ghost use Rattle.cudf_check.specs.JobStyles.{named_style};
ghost use Rattle.cudf_check.specs.Working.Named.{origin_view};
ghost use Rattle.cudf_device.specs.Promises.PaperInside.{Says};

use crate::lines::naming::{print_file_prefix, print_numbered};
use crate::naming::Origin;
use cudf_device::{Paper, Sink};
use cudf_document::Package;
use cudf_referee::{Aspect, Instance, Key, Part, Requirement};
use cudf_value::{Atom, Clause, Vpkg};

/// Prints a vpkg, with its bound, if it has one.
fn print_vpkg<W: Sink>(paper: &mut Paper<'_, W>, vpkg: &Vpkg<'_>)
    ensures { Says W.state paper.old paper.new (vpkg_text (vpkg_view vpkg.now)) }
{
    paper.text(vpkg.name);
    if let Some((relop, number)) = vpkg.bound {
        paper.text(" ");
        paper.text(relop.symbol());
        paper.text(" ");
        paper.number(number);
    }
}

/// Prints an atom.
fn print_atom<W: Sink>(paper: &mut Paper<'_, W>, atom: &Atom<'_>)
    ensures { Says W.state paper.old paper.new (atom_text (atom_view atom.now)) }
{
    match atom {
        Atom::Yes => paper.text("true!"),
        Atom::No => paper.text("false!"),
        Atom::Is(vpkg) => print_vpkg(paper, vpkg),
    }
}

/// Prints a clause.
fn print_clause<W: Sink>(paper: &mut Paper<'_, W>, clause: Clause<'_>)
    ensures { Says W.state paper.old paper.new (clause_text (clause_view clause.entry)) }
{
    let mut atoms = clause.atoms();
    if let Some(first) = atoms.next() {
        print_atom(paper, &first);
        for atom in atoms {
            paper.text(" | ");
            print_atom(paper, &atom);
        }
    }
}

/// Prints the package that meets an entry, if there is one.
pub(crate) fn print_meeting<W: Sink>(paper: &mut Paper<'_, W>, met: Option<&Package<'_>>)
    ensures { Says W.state paper.old paper.new (meeting_text (option_map (λ p. package_view p.now) met.entry)) }
{
    if let Some(package) = met {
        paper.text(", met by ");
        paper.text(package.name);
        paper.text(" ");
        paper.number(package.version);
    }
}

/// Prints what is wrong with an entry of `upgrade` in this way.
fn print_aspect<W: Sink>(paper: &mut Paper<'_, W>, vpkg: &Vpkg<'_>, aspect: Aspect)
    ensures { Says W.state paper.old paper.new (upgrade_text (vpkg_view vpkg.now) (Some aspect)) }
{
    match aspect {
        Aspect::Unsatisfied => {
            paper.text("upgrade needs ");
            print_vpkg(paper, vpkg);
        }
        Aspect::Many => {
            paper.text("upgrade ");
            paper.text(vpkg.name);
            paper.text(" has several versions");
        }
        Aspect::Lower => {
            paper.text("upgrade ");
            paper.text(vpkg.name);
            paper.text(" is lower than before");
        }
    }
}

/// Prints what is wrong with an entry of `upgrade`.
fn print_upgrade<W: Sink>(paper: &mut Paper<'_, W>, vpkg: &Vpkg<'_>, aspect: Option<Aspect>)
    ensures { Says W.state paper.old paper.new (upgrade_text (vpkg_view vpkg.now) aspect) }
{
    if let Some(aspect) = aspect {
        print_aspect(paper, vpkg, aspect);
    }
}

/// Prints an entry after a text, and the package that meets it.
fn print_met<W: Sink>(
    paper: &mut Paper<'_, W>,
    before: &str,
    vpkg: &Vpkg<'_>,
    met: Option<&Package<'_>>,
)
    ensures { Says W.state paper.old paper.new (before.now ++ vpkg_text (vpkg_view vpkg.now) ++ meeting_text (option_map (λ p. package_view p.now) met.entry)) }
{
    paper.text(before);
    print_vpkg(paper, vpkg);
    print_meeting(paper, met);
}

/// Prints what is wrong, with the package that meets the entry.
fn print_what<W: Sink>(
    paper: &mut Paper<'_, W>,
    what: &Requirement<'_>,
    aspect: Option<Aspect>,
    met: Option<&Package<'_>>,
)
    ensures { Says W.state paper.old paper.new (what_text (what_view what.now) aspect (option_map (λ p. package_view p.now) met.entry)) }
{
    match what {
        Requirement::Needs(clause) => {
            paper.text("needs ");
            print_clause(paper, *clause);
        }
        Requirement::ConflictsWith(vpkg) => print_met(paper, "conflicts with ", vpkg, met),
        Requirement::KeepVersion => paper.text("keep version"),
        Requirement::KeepPackage => paper.text("keep package"),
        Requirement::KeepFeature(vpkg) => {
            paper.text("keep feature ");
            print_vpkg(paper, vpkg);
        }
        Requirement::Install(vpkg) => {
            paper.text("needs ");
            print_vpkg(paper, vpkg);
        }
        Requirement::Remove(vpkg) => print_met(paper, "must remove ", vpkg, met),
        Requirement::Upgrade(vpkg) => print_upgrade(paper, vpkg, aspect),
        Requirement::Unknown => paper.text("not in the universe"),
    }
}

/// Prints the part of a key.
fn print_part<W: Sink>(paper: &mut Paper<'_, W>, part: Part)
    ensures { Says W.state paper.old paper.new (part_row part).1 }
{
    match part {
        Part::Package(place) => {
            paper.text("p");
            paper.number(place);
        }
        Part::Request => paper.text("r"),
        Part::Solution => paper.text("s"),
    }
}

/// Prints the aspect of a key, if it has one.
#[tactic(auto, using(cudf_job::proofs::KeyTextLemmas::dotted))]
fn print_key_aspect<W: Sink>(paper: &mut Paper<'_, W>, aspect: Option<Aspect>)
    ensures { Says W.state paper.old paper.new (aspect_row aspect).1 }
{
    if let Some(aspect) = aspect {
        paper.text(".");
        paper.text(aspect.text());
    }
}

/// Prints a key.
pub(crate) fn print_key<W: Sink>(paper: &mut Paper<'_, W>, key: Key)
    ensures { Says W.state paper.old paper.new (key_text (key_view key)) }
{
    print_part(paper, key.part());
    paper.text(".");
    paper.text(key.rule().text());
    paper.text(".");
    paper.number(key.place());
    print_key_aspect(paper, key.aspect());
}

/// Prints the name and version that an instance is about, if there are any.
fn print_subject<W: Sink>(paper: &mut Paper<'_, W>, subject: Option<(&str, u64)>)
    ensures { Says W.state paper.old paper.new (subject_text (option_map (λ s. (s.0.now, s.1)) subject.entry)) }
{
    if let Some((name, version)) = subject {
        paper.text(" ");
        paper.text(name);
        paper.text(" ");
        paper.number(version);
    }
}

/// Prints an instance's line up to what is added to it, with the package that meets its entry.
pub(crate) fn print_instance<W: Sink>(
    paper: &mut Paper<'_, W>,
    origin: Option<Origin<'_>>,
    instance: &Instance<'_>,
    met: Option<&Package<'_>>,
)
    ensures { Says W.state paper.old paper.new (met_text (named_style (option_map origin_view origin.entry)) (instance_view instance.now) (option_map (λ p. package_view p.now) met.entry)) }
{
    print_file_prefix(paper, origin, instance.line);
    print_key(paper, instance.key);
    print_subject(paper, instance.subject);
    print_numbered(paper, origin, instance.line);
    paper.text(": ");
    print_what(paper, &instance.what, instance.key.aspect(), met);
}

/// The package at a place, if there is one.
pub(crate) fn package_at<'x, 't>(
    packages: &'x [Package<'t>],
    place: Option<u64>,
) -> Option<&'x Package<'t>>
    ensures { (problem : PlainProblem) → map package_view packages.now ≡ problem.packages
        → option_map (λ p. package_view p.now) result ≡ option_and_then (package_at problem) place }
{
    packages.get((place? as usize).checked_sub(1)?)
}
