//! Dominance, names, and texts of levels and ranges.

use crate::tests::{Spans, set_of};
use crate::{Level, LevelNames, Named, Range};
use cil_base::Bytes;
use std::alloc::Global;
use std::test::Fail;

/// A level: its sensitivity, and its categories.
type Plain = (u16, Spans);

fn level(plain: Plain) -> Level {
    Level {
        sensitivity: plain.0,
        categories: set_of(plain.1),
    }
}

/// Two levels, and whether the first dominates the second.
const DOMINANCE: &[(Plain, Plain, bool)] = &[
    ((0, &[]), (0, &[]), true),
    ((1, &[(0, 9)]), (1, &[(0, 9)]), true),
    ((1, &[]), (0, &[]), true),
    ((0, &[]), (1, &[]), false),
    ((0, &[(0, 1023)]), (0, &[(1023, 1023)]), true),
    ((0, &[(0, 1022)]), (0, &[(1023, 1023)]), false),
    // Neither dominates the other.
    ((1, &[(0, 0)]), (0, &[(1, 1)]), false),
    ((0, &[(1, 1)]), (1, &[(0, 0)]), false),
];

#[test]
fn levels_dominate(rt: HostRuntime) {
    for &(one, other, want) in DOMINANCE {
        assert!(rt;
            level(one).dominates(&level(other)) == want,
            "{one:?} {other:?}"
        );
    }
}

/// Names and their places.
type Rows = &'static [(&'static [u8], usize)];

const SENSITIVITIES: Rows = &[(b"low", 0), (b"s0", 0), (b"s1", 1)];

const CATEGORIES: Rows = &[
    (b"c0", 0),
    (b"c1", 1),
    (b"c1023", 1023),
    (b"c2", 2),
    (b"c3", 3),
    (b"top", 3),
];

fn named(alloc: Global, rows: Rows) -> Result<Vec<Named>, Fail> {
    let mut names = Vec::new(alloc);
    for &(name, place) in rows {
        let name = Bytes::copy_of(alloc, name)?;
        names.push(Named { name, place })?;
    }
    Ok(names)
}

/// Names of sensitivities and of categories, and whether levels can be read by them.
const LISTS: &[(Rows, Rows, bool)] = &[
    (&[], &[], true),
    (SENSITIVITIES, CATEGORIES, true),
    (&[(b"s1", 1), (b"s0", 0)], &[], false),
    (&[], &[(b"c0", 0), (b"c0", 0)], false),
    (&[(b"s", 255)], &[(b"c", 1023)], true),
    (&[(b"s", 256)], &[(b"c", 0)], false),
    (&[(b"s", 0)], &[(b"c", 1024)], false),
];

#[test]
fn names_rise_and_have_places(rt: HostRuntime) -> Result<(), Fail> {
    let alloc = rt.alloc();
    for &(sensitivities, categories, want) in LISTS {
        let names = LevelNames::of(named(alloc, sensitivities)?, named(alloc, categories)?);
        assert!(rt; names.is_some() == want, "{sensitivities:?} {categories:?}");
    }
    Ok(())
}

/// A text, and the levels of its range.
type Text = (&'static [u8], Option<(Plain, Plain)>);

const TEXTS: &[Text] = &[
    (b"s0", Some(((0, &[]), (0, &[])))),
    (b"low", Some(((0, &[]), (0, &[])))),
    (b"s0-s1", Some(((0, &[]), (1, &[])))),
    (b"s1-s0", Some(((1, &[]), (0, &[])))),
    (b"s0:c0.c3", Some(((0, &[(0, 3)]), (0, &[(0, 3)])))),
    (b"s0:c1,c2", Some(((0, &[(1, 2)]), (0, &[(1, 2)])))),
    (b"s0:c2,c1", Some(((0, &[(1, 2)]), (0, &[(1, 2)])))),
    (b"s0:c1,c1", Some(((0, &[(1, 1)]), (0, &[(1, 1)])))),
    (b"s0:c2.c2", Some(((0, &[(2, 2)]), (0, &[(2, 2)])))),
    (b"s0:c0.top", Some(((0, &[(0, 3)]), (0, &[(0, 3)])))),
    (
        b"s1:c2.c2-s1:c0.c1,c3",
        Some(((1, &[(2, 2)]), (1, &[(0, 1), (3, 3)]))),
    ),
    (b"s0-s1:c0", Some(((0, &[]), (1, &[(0, 0)])))),
    (b"s0-s0:c0.c1023", Some(((0, &[]), (0, &[(0, 1023)])))),
    (b"s0:c3.c0", None),
    (b"s0:", None),
    (b"s0:c0,", None),
    (b"s0:,c0", None),
    (b"s0:c0.", None),
    (b"s0:.c0", None),
    (b"s0:c0.c1.c2", None),
    (b"s0:c0:c1", None),
    (b"s0-", None),
    (b"-s0", None),
    (b"s0-s1-s1", None),
    (b"s2", None),
    (b"s0:c4", None),
    (b"c0", None),
    (b"s0:s0", None),
    (b"", None),
    (b" s0", None),
    (b"s0:c0 ", None),
];

/// Whether a text is so: the range, and as a level its high one if it has no hyphen.
fn is_read_so(names: &LevelNames, text: &[u8], want: Option<(Plain, Plain)>) -> bool {
    let range = match want {
        None => None,
        Some((low, high)) => Some(Range {
            low: level(low),
            high: level(high),
        }),
    };
    let one = match range {
        Some(range) if !text.contains(&b'-') => Some(range.high),
        _ => None,
    };
    names.parse_range(text) == range && names.parse_level(text) == one
}

#[test]
fn texts_are_read(rt: HostRuntime) -> Result<(), Fail> {
    let alloc = rt.alloc();
    let names = LevelNames::of(named(alloc, SENSITIVITIES)?, named(alloc, CATEGORIES)?);
    let names = names.ok_or("no names")?;
    for &(text, want) in TEXTS {
        assert!(rt; is_read_so(&names, text, want), "{text:?}");
    }
    Ok(())
}
