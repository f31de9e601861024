//! Keys in their order.
use cudf_referee::Key;

/// Keys, each before the next one.
const KEYS: [&str; 13] = [
    "p1.depends.1",
    "p1.conflicts.1",
    "p1.keep.1",
    "p2.keep.9",
    "p10.depends.1",
    "r.install.1",
    "r.install.2",
    "r.remove.1",
    "r.upgrade.1.unsatisfied",
    "r.upgrade.1.many",
    "r.upgrade.1.lower",
    "r.upgrade.2.unsatisfied",
    "s.unknown.18446744073709551615",
];

/// Whether the key of this number comes before the next one.
fn is_before_next(number: usize) -> bool {
    match (KEYS.get(number), KEYS.get(number.saturating_add(1))) {
        (Some(text), Some(next)) => Key::parse(text) < Key::parse(next),
        _ => true,
    }
}

#[test]
fn keys(rt: HostRuntime) {
    for (number, text) in KEYS.iter().enumerate() {
        assert!(rt;
            Key::parse(text).is_some() && is_before_next(number),
            "{text}"
        );
    }
}
