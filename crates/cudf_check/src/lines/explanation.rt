//! Prints what the problem and the statuses say beside a violated instance.
ghost use Rattle.std.specs.Prelude.{◌≡◌, ◌++◌, [], Some, codes, option_and_then, option_map, true};
ghost use Rattle.cudf_problem.specs.Promises.Views.{package_view};
ghost use Rattle.cudf_device.specs.Promises.PaperInside.{Says};
ghost use Rattle.cudf_referee.specs.Promises.Views.{instance_view};
ghost use Rattle.cudf_referee.specs.Explanations.{needed_by};
ghost use Rattle.cudf_check.specs.Explanations.{stanza_text, explained, help_of, lacks_package, named_text, needed_added, needed_text, needer_text, number_text, numbers_added, status_added, unknown_added, would_do_text};
ghost use Rattle.cudf_check.specs.Working.Named.{listed_by, origin_view};

use crate::lines::instance::package_at;
use crate::lines::naming::{StanzaLines, print_listed};
use cudf_device::{Paper, Sink};
use cudf_document::Package;
use cudf_referee::{Aspect, Explainer, Instance, Remedies, Requirement};

/// Prints where a package is.
fn print_stanza<W: Sink>(paper: &mut Paper<'_, W>, package: &Package<'_>)
    ensures { Says W.state paper.old paper.new (stanza_text (package_view «package».now)) }
{
    paper.text(package.name);
    paper.text(" ");
    paper.number(package.version);
    paper.text(" line ");
    paper.number(package.line);
}

/// Prints the package that alone would do, or that none would.
fn print_would_do<W: Sink>(paper: &mut Paper<'_, W>, does: Option<&Package<'_>>)
    ensures { Says W.state paper.old paper.new (would_do_text (option_map (λ p. package_view p.now) does.entry)) }
{
    match does {
        Some(package) => {
            paper.text("; ");
            print_stanza(paper, package);
            paper.text(" would do");
        }
        None => paper.text("; nothing in the problem would do"),
    }
}

/// Prints the package that was installed.
fn print_was_installed<W: Sink>(paper: &mut Paper<'_, W>, package: &Package<'_>)
    ensures { Says W.state paper.old paper.new (codes "; " ++ stanza_text (package_view «package».now) ++ codes " was installed") }
{
    paper.text("; ");
    print_stanza(paper, package);
    paper.text(" was installed");
}

/// Whether the instance is of depends, install or upgrade, and lacks a package that satisfies its clause or entry.
fn lacks_package(instance: &Instance<'_>) -> bool
    ensures { result ≡ lacks_package (instance_view instance.now).what (instance_view instance.now).key.aspect }
{
    match instance.what {
        Requirement::Needs(_) | Requirement::Install(_) => true,
        Requirement::Upgrade(_) => matches!(instance.key.aspect(), Some(Aspect::Unsatisfied)),
        _ => false,
    }
}

/// Prints the package of the problem that would help, where the instance lacks one, and where the solution has it.
pub(crate) fn print_remedy<W: Sink>(
    paper: &mut Paper<'_, W>,
    remedies: &Remedies<'_, '_>,
    listed: StanzaLines<'_>,
    instance: &Instance<'_>,
)
    ensures { Says W.state paper.old paper.new (help_of (listed_by (option_map origin_view listed.entry.origin) listed.entry.lines.now) remedies.now (instance_view instance.now)) }
{
    if lacks_package(instance) {
        let packages = remedies.packages();
        let before = remedies.installed_remedy(instance);
        let named = package_at(packages, before);
        match named {
            Some(package) => {
                print_was_installed(paper, package);
                print_listed(paper, listed, before);
            }
            None => {
                let does = remedies.first_remedy(instance);
                let helper = package_at(packages, does);
                print_would_do(paper, helper);
                print_listed(paper, listed, does);
            }
        }
    }
}

/// Prints the package of the problem that would help, where the instance lacks one, and no line of a solution.
pub(crate) fn print_help_alone<W: Sink>(
    paper: &mut Paper<'_, W>,
    remedies: &Remedies<'_, '_>,
    instance: &Instance<'_>,
)
    ensures { Says W.state paper.old paper.new (help_of (λ place. []) remedies.now (instance_view instance.now)) }
{
    let listed = StanzaLines {
        origin: None,
        lines: &[],
    };
    print_remedy(paper, remedies, listed, instance);
}

/// Prints the first package of a name, or that there is none.
fn print_named<W: Sink>(paper: &mut Paper<'_, W>, name: &str, named: Option<&Package<'_>>)
    ensures { Says W.state paper.old paper.new (named_text name.now (option_map (λ p. package_view p.now) named.entry)) }
{
    match named {
        Some(package) => {
            paper.text("; the problem has ");
            print_stanza(paper, package);
        }
        None => {
            paper.text("; the problem has no ");
            paper.text(name);
        }
    }
}

/// Prints a number of an entry of `upgrade` that is violated by it, and a text after it.
fn print_number<W: Sink>(paper: &mut Paper<'_, W>, number: Option<u64>, behind: &str)
    ensures { Says W.state paper.old paper.new (number_text number ++ behind.now) }
{
    paper.number(number.unwrap_or(0));
    paper.text(behind);
}

/// Prints two numbers of an entry of `upgrade`, each with the text after it.
fn print_pair<W: Sink>(
    paper: &mut Paper<'_, W>,
    first: Option<u64>,
    between: &str,
    second: Option<u64>,
    behind: &str,
)
    ensures { Says W.state paper.old paper.new (codes "; " ++ number_text first ++ between.now ++ number_text second ++ behind.now) }
{
    paper.text("; ");
    print_number(paper, first, between);
    print_number(paper, second, behind);
}

/// Prints the numbers of an entry of `upgrade` that is violated by them.
fn print_numbers<W: Sink>(
    paper: &mut Paper<'_, W>,
    explainer: &Explainer<'_, '_, '_>,
    name: &str,
    aspect: Option<Aspect>,
)
    ensures { Says W.state paper.old paper.new (numbers_added explainer.now name.now aspect) }
{
    let least = explainer.least(name);
    match aspect {
        None | Some(Aspect::Unsatisfied) => {}
        Some(Aspect::Many) => {
            print_pair(paper, least, " and ", explainer.greatest(name), " now");
        }
        Some(Aspect::Lower) => {
            let greatest = explainer.greatest_before(name);
            print_pair(paper, least, " now, ", greatest, " before");
        }
    }
}

/// Prints what is added to a stanza that isn't in the universe.
fn print_unknown<W: Sink>(
    paper: &mut Paper<'_, W>,
    explainer: &Explainer<'_, '_, '_>,
    subject: Option<(&str, u64)>,
)
    ensures { Says W.state paper.old paper.new (unknown_added explainer.now (option_map (λ s. (s.0.now, s.1)) subject.entry)) }
{
    if let Some((name, _)) = subject {
        let remedies = explainer.remedies();
        let named = package_at(remedies.packages(), remedies.first_named(name));
        print_named(paper, name, named);
    }
}

/// Prints what the statuses say of an instance.
fn print_status<W: Sink>(
    paper: &mut Paper<'_, W>,
    explainer: &Explainer<'_, '_, '_>,
    instance: &Instance<'_>,
)
    ensures { let i = instance_view instance.now in Says W.state paper.old paper.new (status_added explainer.now i.what i.key.aspect i.subject) }
{
    match instance.what {
        Requirement::Upgrade(vpkg) => {
            print_numbers(paper, explainer, vpkg.name, instance.key.aspect());
        }
        Requirement::Unknown => print_unknown(paper, explainer, instance.subject),
        Requirement::Needs(_)
        | Requirement::ConflictsWith(_)
        | Requirement::KeepVersion
        | Requirement::KeepPackage
        | Requirement::KeepFeature(_)
        | Requirement::Install(_)
        | Requirement::Remove(_) => {}
    }
}

/// Prints the package that needs another one, or that none does.
fn print_needer<W: Sink>(paper: &mut Paper<'_, W>, needer: Option<&Package<'_>>)
    ensures { Says W.state paper.old paper.new (needer_text (option_map (λ p. package_view p.now) needer.entry)) }
{
    match needer {
        Some(package) => print_stanza(paper, package),
        None => paper.text("nothing installed"),
    }
}

/// Prints where the package is that meets an entry, if there is one, and which one needs it.
fn print_needed<W: Sink>(
    paper: &mut Paper<'_, W>,
    met: Option<&Package<'_>>,
    needer: Option<&Package<'_>>,
)
    ensures { Says W.state paper.old paper.new (needed_text (option_map (λ p. package_view p.now) met.entry) (option_map (λ p. package_view p.now) needer.entry)) }
{
    if let Some(package) = met {
        paper.text("; line ");
        paper.number(package.line);
        paper.text(", needed by ");
        print_needer(paper, needer);
    }
}

/// The place of the first installed package that needs the one at this place, if there is one.
fn needer_of(explainer: &Explainer<'_, '_, '_>, met: Option<u64>) -> Option<u64>
    ensures { result ≡ option_and_then (needed_by explainer.now.proposed) met }
{
    match met {
        Some(place) => explainer.needed_by(place),
        None => None,
    }
}

/// Prints what is added of the package at the place that meets an entry.
fn print_met<W: Sink>(paper: &mut Paper<'_, W>, explainer: &Explainer<'_, '_, '_>, met: Option<u64>)
    ensures { Says W.state paper.old paper.new (needed_added explainer.now met) }
{
    let packages = explainer.remedies().packages();
    let needer = package_at(packages, needer_of(explainer, met));
    print_needed(paper, package_at(packages, met), needer);
}

/// Prints what the problem, the statuses and the solution's stanzas say of an instance, whose entry the package at this
/// place meets.
pub(crate) fn print_explained<W: Sink>(
    paper: &mut Paper<'_, W>,
    explainer: &Explainer<'_, '_, '_>,
    listed: StanzaLines<'_>,
    instance: &Instance<'_>,
    met: Option<u64>,
)
    ensures { Says W.state paper.old paper.new (explained (listed_by (option_map origin_view listed.entry.origin) listed.entry.lines.now) explainer.now (instance_view instance.now) met) }
{
    print_remedy(paper, explainer.remedies(), listed, instance);
    print_status(paper, explainer, instance);
    print_met(paper, explainer, met);
}
