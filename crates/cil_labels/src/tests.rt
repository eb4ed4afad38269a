//! Tables of levels, the labels of texts by one, and clearances.

use crate::{LabelParts, Labels};
use cil_base::Bytes;
use cil_mls::{Categories, Level, Named, Range};
use std::alloc::Global;
use std::test::Fail;

/// The names of items in their order.
type Names = &'static [&'static [u8]];

/// Names and their places.
type Rows = &'static [(&'static [u8], usize)];

fn names_of(alloc: Global, names: Names) -> Result<Vec<Bytes>, Fail> {
    let mut all = Vec::new(alloc);
    for &name in names {
        all.push(Bytes::copy_of(alloc, name)?)?;
    }
    Ok(all)
}

fn rows_of(alloc: Global, rows: Rows) -> Result<Vec<Named>, Fail> {
    let mut all = Vec::new(alloc);
    for &(name, place) in rows {
        let name = Bytes::copy_of(alloc, name)?;
        all.push(Named { name, place })?;
    }
    Ok(all)
}

fn level(sensitivity: u16, categories: Categories) -> Level {
    Level {
        sensitivity,
        categories,
    }
}

/// A table with sensitivities `s0` and `s1` and categories `c0` to `c3`, of which `s0` permits the first two. One name more of each
/// cannot be written. The one user has the range `s0-s1:c0.c2`.
fn labels_of(alloc: Global, are_on: bool, aliases: Rows) -> Result<Option<Labels>, Fail> {
    let mut permitted = Vec::new(alloc);
    permitted.push(Categories::first(2))?;
    permitted.push(Categories::first(4))?;
    permitted.push(Categories::first(4))?;
    let mut users = Vec::new(alloc);
    users.push(Range {
        low: level(0, Categories::none()),
        high: level(1, Categories::first(3)),
    })?;
    let parts = LabelParts {
        are_on,
        categories: names_of(alloc, &[b"c0", b"c1", b"c2", b"c3", b"c.4"])?,
        category_aliases: rows_of(alloc, &[(b"top", 3), (b"top", 3)])?,
        sensitivities: names_of(alloc, &[b"s0", b"s1", b"s-2"])?,
        permitted,
        sensitivity_aliases: rows_of(alloc, aliases)?,
        users,
    };
    Ok(Labels::of(alloc, parts)?)
}

/// Aliases of sensitivities, and whether there is a table.
const ALIASES: &[(Rows, bool)] = &[
    (&[], true),
    (&[(b"low", 0), (b"high", 1)], true),
    (&[(b"s1", 1)], true),
    (&[(b"s1", 0)], false),
    (&[(b"a", 0), (b"a", 1)], false),
    (&[(b"a-b", 0), (b"a-b", 1)], true),
    (&[(b"a", 255)], true),
    (&[(b"a", 256)], false),
    (&[(b"a.b", 256)], true),
];

#[test]
fn names_stand_for_one_place(rt: HostRuntime) -> Result<(), Fail> {
    for &(aliases, want) in ALIASES {
        let labels = labels_of(rt.alloc(), true, aliases)?;
        assert!(rt; labels.is_some() == want, "{aliases:?}");
    }
    Ok(())
}

/// A text, whether levels are on, and how many bytes its type has, if it is a label.
const TEXTS: &[(&[u8], bool, Option<usize>)] = &[
    (b"t", false, Some(1)),
    (b"", false, Some(0)),
    (b"t:s0", false, None),
    (b"t:", false, None),
    (b"t", true, None),
    (b"t:", true, None),
    (b"t:s0", true, Some(1)),
    (b"my_t:s0-s1", true, Some(4)),
    (b"my_t:low-s1:c0.c2,top", true, Some(4)),
    (b"t:s1-s0", true, None),
    (b"t:s0:c1", true, Some(1)),
    (b"t:s0:c2", true, None),
    (b"t:s1:c2", true, Some(1)),
    (b"t:s0:c0-s1:c2", true, None),
    (b"t:s0:c0-s1:c0,c2", true, Some(1)),
    (b"t:s0-s1:c0-s1", true, None),
    (b"t:s0:s1", true, None),
    (b"t:s-2", true, None),
    (b"t:s1:c.4", true, None),
    (b"t:s2", true, None),
    (b":s0", true, Some(0)),
];

#[test]
fn texts_are_labels(rt: HostRuntime) -> Result<(), Fail> {
    for &(text, are_on, want) in TEXTS {
        let labels = labels_of(rt.alloc(), are_on, &[(b"low", 0)])?;
        let found = type_length(&labels, text);
        assert!(rt; found == want, "{text:?} {are_on} {found:?}");
    }
    Ok(())
}

/// How many bytes the type of a label has, if there is a table, and the text is a label by it.
fn type_length(labels: &Option<Labels>, text: &[u8]) -> Option<usize> {
    let Some(labels) = labels else {
        return None;
    };
    let Some(label) = labels.label_of(text) else {
        return None;
    };
    Some(label.kind.len())
}

#[test]
fn users_are_cleared(rt: HostRuntime) -> Result<(), Fail> {
    let labels = labels_of(rt.alloc(), true, &[])?;
    let none = Categories::none();
    for (user, low, high, want) in [
        (0, level(0, none), level(1, Categories::first(3)), true),
        (0, level(0, Categories::first(4)), level(1, none), true),
        (0, level(0, none), level(1, Categories::first(4)), false),
        (0, level(0, none), level(2, none), false),
        (1, level(0, none), level(0, none), false),
    ] {
        let found = is_cleared(&labels, user, &low, &high);
        assert!(rt; found == want, "{user} {low:?} {high:?}");
    }
    Ok(())
}

/// Whether there is a table, and the user may have these levels by it.
fn is_cleared(labels: &Option<Labels>, user: usize, low: &Level, high: &Level) -> bool {
    match labels {
        None => false,
        Some(labels) => labels.is_cleared(user, low, high),
    }
}
