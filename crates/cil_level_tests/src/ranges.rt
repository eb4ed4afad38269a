//! Levels, ranges and the ranges of users, and what is wrong with them.

ghost use Rattle.std.specs.Prelude.{◌≡◌, map};
ghost use Rattle.cil_faults.specs.declared.fault.Fault.{Fault};
ghost use Rattle.cil_mls.specs.OrderFaults.{AreOrders, OrderFault};
ghost use Rattle.cil_macros.specs.Items.{items_in, namespaces_in};
ghost use Rattle.cil_names.specs.Faults.{ClashFault};
ghost use Rattle.cil_names.specs.Rows.{IsTableOf};
ghost use Rattle.cil_known.specs.Known.{IsKnown, enabled_in, row_in};
ghost use Rattle.cil_known.specs.Numbers.{AreApart, names_of};

use crate::orders::{show_name, show_texts};
use crate::{show_faults, there};
use cil_base::Bytes;
use cil_known::{Known, Sections};
use cil_macros::Instances;
use cil_mls::{Level, MOST_CATEGORIES, Orders, Range};
use cil_names::Entry;
use cil_syntax::Failure;
use cil_tables::{Levels, levels_of};
use std::alloc::Global;

/// Behind each text: `s` is below `t`, `a` to `c` are in this order, and `c` may not go with `s`.
const GROUND: &str =
    "(sensitivity s)(sensitivity t)(sensitivityorder (s t))(category a)(category b)(category c)(categoryorder (a b c))(sensitivitycategory s (a b))(sensitivitycategory t (all))";

/// What is said of `GROUND` before levels.
const SAID: &str = "s: a b\nt: a b c\n";

/// A text, and what `levels_of` says of it: a line for each level, each range and each user with a range, by their names; or the faults.
const ROWS: &[(&str, &str)] = &[
    ("", ""),
    // a level has a sensitivity, and categories by an expression
    (
        "(level l (s (a)))(level m (t (not (a))))(level n (s))(level o (t (range b c)))",
        "l: s a\nm: t b c\nn: s\no: t b c\n",
    ),
    // an alias stands for its item; a range is of levels that are named or written out
    (
        "(sensitivityalias k)(sensitivityaliasactual k t)(level l (k (b)))(levelrange r ((s) l))",
        "l: t b\nr: s - t b\n",
    ),
    // the range of a user is named or written out
    (
        "(user u)(userrange u ((s) (t (a))))(user v)(userrange v r)(levelrange r ((s) (s (a))))",
        "r: s - s a\nu: s - t a\nv: s - s a\n",
    ),
    // what a macro is handed
    (
        "(user u)(macro m ((level p) (levelrange q) (user v)) (userrange v q) (levelrange r (p p)))(call m ((s (b)) ((s) (t)) u))",
        "r: s b - s b\nu: s - t\n",
    ),
    // nothing is declared in an optional that is off
    ("(optional o (level l (s (c))))", ""),
    // 61: the sensitivity's word, of a level that is named once, and of an argument of a call
    ("(level l (s (c)))", "61 0 10 . s\n"),
    (
        "(level l (s (c)))(levelrange r (l l))(user u)(userrange u (l (t (c))))",
        "61 0 10 . s\n",
    ),
    (
        "(user u)(macro m ((level p)) (userrange u (p p)))(call m ((s (c))))",
        "61 0 59 . s\n",
    ),
    (
        "(macro m ((level p)))(call m ((s (not (a)))))",
        "61 0 31 . s\n",
    ),
    ("(block b (level l (s (c))))", "61 0 19 b s\n"),
    // 62: a high level is below in its sensitivity, or has not all categories of the low one
    ("(levelrange r ((t) (s)))", "62 0 14 . -\n"),
    ("(levelrange r ((t (a)) (t (b))))", "62 0 14 . -\n"),
    (
        "(level l (s))(user u)(userrange u ((t) l))",
        "62 0 34 . -\n",
    ),
    ("(levelrange r ((s (a b)) (t (b a))))", "r: s a b - t a b\n"),
    (
        "(levelrange r ((t (c)) (s (c))))",
        "61 0 24 . s\n62 0 14 . -\n",
    ),
    // 62: a range of categories that is turned, which is empty for the other faults
    ("(sensitivitycategory t (range c a))", "62 0 23 . -\n"),
    ("(level l (s (range c a)))", "62 0 12 . -\n"),
    // 63: only where levels are on
    ("(user u)", ""),
    ("(mls false)(user u)", ""),
    ("(mls true)(user u)", "63 0 16 . u\n"),
    ("(mls true)(block b (user u))", "63 0 25 b u\n"),
    ("(mls true)(user u)(userrange u ((s) (t)))", "u: s - t\n"),
    // 64: two ranges that differ, whatever words name them
    (
        "(user u)(userrange u ((s) (t)))(userrange u ((s) (t (a))))",
        "64 0 19 . u\n64 0 42 . u\n",
    ),
    (
        "(block b (user u)(userrange u ((s) (t))))(userrange b.u ((s) (s)))",
        "64 0 28 b u\n64 0 52 . b.u\n",
    ),
    (
        "(user u)(userrange u ((s (a b)) (t (all))))(userrange u ((s (b a)) (t all)))",
        "u: s a b - t a b c\n",
    ),
    (
        "(user u)(userrange u r)(userrange u ((s) (t)))(userrange u r)(levelrange r ((s) (t)))",
        "r: s - t\nu: s - t\n",
    ),
];

/// Whether a text with the ground behind it has these lines.
fn are_levels(alloc: Global, text: &str, want: &str) -> bool {
    let mut whole = String::new(alloc);
    let mut end = String::new(alloc);
    let mut out = String::new(alloc);
    write!(whole, "{text}{GROUND}").is_ok()
        && write!(end, "{SAID}{want}").is_ok()
        && show_texts(alloc, &[whole.as_str()], &mut out)
        && out.as_str().ends_with(end.as_str())
}

#[test]
fn levels_and_ranges_are_told(rt: HostRuntime) {
    for &(text, want) in ROWS {
        assert!(rt; are_levels(rt.alloc(), text, want), "{text}");
    }
}

/// Adds the lines of levels, or those of the faults. False where there is no memory.
pub(crate) fn show_levels(
    alloc: Global,
    instances: &Instances,
    known: &Known,
    sections: &Sections,
    orders: &Orders,
    out: &mut String,
) -> bool
    requires namespaces { known.now.lookup.namespaces.now ≡ namespaces_in instances.now }
    requires table { IsTableOf (map (row_in known.now) (items_in instances.now)) known.now.words.now }
    requires known { IsKnown known.now (items_in instances.now) (names_of sections.now) }
    requires apart { AreApart known.now.lookup.names.now (enabled_in known.now) known.now.numbers.now }
    requires clashes { (f : Fault) → ClashFault (items_in instances.now) f → ⊥ }
    requires orders { AreOrders (items_in instances.now) (enabled_in known.now) sections.now.sensitivities.items sections.now.categories.items orders.now }
    requires none { (f : Fault) → OrderFault (items_in instances.now) (enabled_in known.now) f → ⊥ }
{
    match levels_of(alloc, instances, known, sections, orders) {
        Ok(levels) => show_entries(known.lookup.names.entries(), &levels, sections, orders, out),
        Err(Failure::Faults(faults)) => show_faults(alloc, &faults, out),
        Err(Failure::NoMemory) => false,
    }
}

fn show_entries(
    entries: &[Entry],
    levels: &Levels,
    sections: &Sections,
    orders: &Orders,
    out: &mut String,
) -> bool {
    for number in 0..entries.len() {
        if !show_entry(&entries[number], number, levels, sections, orders, out) {
            return false;
        }
    }
    true
}

/// Adds the line of the entry with a number, if it is a level, a range, or a user that has one.
fn show_entry(
    entry: &Entry,
    number: usize,
    levels: &Levels,
    sections: &Sections,
    orders: &Orders,
    out: &mut String,
) -> bool {
    if let Some(level) = there(levels.levels.as_slice(), number) {
        return show_line(entry, &level, None, sections, orders, out);
    }
    let Some(range) = there(levels.ranges.as_slice(), number).or(there(
        levels.users.as_slice(),
        number,
    )) else {
        return true;
    };
    show_line(entry, &range.low, Some(range.high), sections, orders, out)
}

fn show_line(
    entry: &Entry,
    low: &Level,
    high: Option<Level>,
    sections: &Sections,
    orders: &Orders,
    out: &mut String,
) -> bool {
    if !str::from_utf8(entry.name.as_slice()).is_ok_and(|text| write!(out, "{text}:").is_ok()) {
        return false;
    }
    if !show_level(low, sections, orders, out) {
        return false;
    }
    if let Some(level) = high {
        if out.push_str(" -").is_err() || !show_level(&level, sections, orders, out) {
            return false;
        }
    }
    out.push_str("\n").is_ok()
}

/// Adds a space and the name of the sensitivity, and the same for each category.
fn show_level(level: &Level, sections: &Sections, orders: &Orders, out: &mut String) -> bool {
    let row = orders.categories.as_slice();
    if !show_at(
        sections.sensitivities.as_slice(),
        orders.sensitivities.as_slice(),
        usize::from(level.sensitivity),
        out,
    ) {
        return false;
    }
    for place in 0..row.len() {
        if place < MOST_CATEGORIES
            && level.categories.has(place)
            && !show_at(sections.categories.as_slice(), row, place, out)
        {
            return false;
        }
    }
    true
}

/// Adds a space and the name at a place of an order.
fn show_at(names: &[Bytes], row: &[usize], place: usize, out: &mut String) -> bool {
    match row.get(place) {
        Some(number) => out.push_str(" ").is_ok() && show_name(names, *number, out),
        None => false,
    }
}
