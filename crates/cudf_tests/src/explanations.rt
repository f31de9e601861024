//! What would help where an instance is violated, and which package needs another one.
use crate::chain::{Asks, judge};
use crate::table::{Answer, expect};
use cudf_referee::{Explainer, laws};

/// Two versions of one name that can't both be there, and of another name what gives a feature.
const CARS: &[u8] =
    b"package: car\nversion: 1\ndepends: wheel > 1 | door, seat\nconflicts: car\n\npackage: car\nversion: 2\ninstalled: true\n\npackage: wheel\nversion: 3\n\npackage: bus\nversion: 4\nprovides: door\n\nrequest: r\ninstall: bus > 4, bus = 4\nupgrade: car > 2, car\n";

/// The first version alone, and a pair that isn't in the universe.
const FIRST_CAR: &[u8] =
    b"package: car\nversion: 1\ninstalled: true\n\npackage: car\nversion: 9\ninstalled: true\n";

/// For each violated instance the package that would do: of `depends` the wheel, which comes before the bus, and no
/// seat; of `install` no bus above 4, and the bus; of `upgrade` no car above 2, neither of the entry that isn't satisfied
/// nor of the one that is lower, and the first car; and none for the pair beyond the universe.
const WOULD_DO: [Option<u64>; 8] = [Some(3), None, None, Some(4), None, None, Some(1), None];

/// For each of them the package that would do and was installed: the second car alone, of the last entry of `upgrade`.
const WAS_INSTALLED: [Option<u64>; 8] = [None, None, None, None, None, None, Some(2), None];

/// The first car, and the bus, which gives the door that the car needs.
const CAR_AND_BUS: &[u8] =
    b"package: car\nversion: 1\ninstalled: true\n\npackage: bus\nversion: 4\ninstalled: true\n";

/// Beside these the wheel, which the car may have in place of the door.
const ALL_THREE: &[u8] =
    b"package: car\nversion: 1\ninstalled: true\n\npackage: wheel\nversion: 3\ninstalled: true\n\npackage: bus\nversion: 4\ninstalled: true\n";

/// Asks what would help, and for the numbers.
struct Help;

impl Asks for Help {
    fn of_explainer(&self, explainer: &Explainer<'_, '_, '_>) -> Answer {
        Ok(helps(explainer) && has_numbers(explainer))
    }
}

fn helps(explainer: &Explainer<'_, '_, '_>) -> bool {
    let remedies = explainer.remedies();
    let mut place = 0;
    for instance in explainer.referee().instances() {
        let does = Some(&remedies.first_remedy(&instance));
        let was = Some(&remedies.installed_remedy(&instance));
        if (WOULD_DO.get(place), WAS_INSTALLED.get(place)) != (does, was) {
            return false;
        }
        place += 1;
    }
    place == WOULD_DO.len()
}

fn has_numbers(explainer: &Explainer<'_, '_, '_>) -> bool {
    (explainer.least("car"), explainer.greatest("car")) == (Some(1), Some(1))
        && (explainer.least("bus"), explainer.greatest("bus")) == (None, None)
        && (
            explainer.greatest_before("car"),
            explainer.greatest_before("bus"),
        ) == (Some(2), None)
        && (
            explainer.remedies().first_named("car"),
            explainer.remedies().first_named("door"),
        ) == (Some(1), None)
}

#[test]
fn explanations(rt: HostRuntime) {
    expect(&rt, judge(rt.alloc(), CARS, FIRST_CAR, &Help));
    laws::does();
    laws::nothing();
}

/// Asks whether this package is the first that needs the bus, and nothing needs the car, nor what isn't there.
struct Needer(Option<u64>);

impl Asks for Needer {
    fn of_explainer(&self, explainer: &Explainer<'_, '_, '_>) -> Answer {
        Ok(is_needed_by(explainer, self.0))
    }
}

fn is_needed_by(explainer: &Explainer<'_, '_, '_>, needer: Option<u64>) -> bool {
    explainer.needed_by(4) == needer
        && explainer.needed_by(1).is_none()
        && explainer.needed_by(0).is_none()
        && explainer.needed_by(9).is_none()
}

#[test]
fn needers(rt: HostRuntime) {
    expect(&rt, judge(rt.alloc(), CARS, CAR_AND_BUS, &Needer(Some(1))));
    expect(&rt, judge(rt.alloc(), CARS, ALL_THREE, &Needer(None)));
    laws::needed();
}
