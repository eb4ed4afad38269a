//! The orders of sensitivities and of categories, and whether levels are on. A session shows no order, only what follows from one.

ghost use Rattle.std.specs.Prelude.{◌≡◌, ◌<◌, List, length, map};
ghost use Rattle.cil_faults.specs.declared.fault.Fault.{Fault};
ghost use Rattle.cil_names.specs.Faults.{ClashFault};
ghost use Rattle.cil_mls.specs.OrderFaults.{AreOrders, OrderFault};
ghost use Rattle.cil_syntax.specs.Program.{IsNested};
ghost use Rattle.cil_blocks.specs.Places.{AreStandings, statements_in};
ghost use Rattle.cil_macros.specs.Items.{items_in, namespaces_in};
ghost use Rattle.cil_names.specs.declared.entry.Entry.{Entry as AnEntry};
ghost use Rattle.cil_names.specs.Entries.{AreEntries, is_in};
ghost use Rattle.cil_known.specs.Known.{IsKnown, enabled_in, row_in};
ghost use Rattle.cil_known.specs.Numbers.{AreApart, ArePlainNames, names_of};
ghost use Rattle.cil_names.specs.PermissionWords.{meanings};
ghost use Rattle.cil_names.specs.Rows.{IsTableOf};
ghost use Rattle.cil_names.specs.Unresolved.{ArePermissions};

use crate::ranges::show_levels;
use crate::show_faults;
use cil_base::{Bytes, NoMemory};
use cil_blocks::{Spaces, inherit};
use cil_known::{Known, Sections, numbered};
use cil_macros::{Instances, expand};
use cil_mls::{Categories, Held, MOST_CATEGORIES, Orders, orders};
use cil_modset::ModuleSet;
use cil_names::{Entry, Lookup, Names, OptSet, Words, commons_of, permissions_of};
use cil_syntax::{Failure, Keyword, Kind, Program, written};
use cil_tables::{asks_of, category_values, declare, permitted, settled};
use cil_text_tests::set_of;
use std::alloc::Global;
use std::test::Fail;

/// A text, and what `orders` says of it: a line for each order with the names from the lowest on, and whether levels are on; or the
/// faults. Then a line for each statement of a set of categories, and for each sensitivity with which categories may go: its name, and
/// what `category_values` and `permitted` say of it. What is said of levels stands behind it.
const ROWS: &[(&str, &str)] = &[
    // nothing is in one order, and so is one item
    ("(type t)", "\n\noff\n"),
    ("(sensitivity s)(category c)", "s\nc\noff\n"),
    // each item is joined to the next, whatever the order of names and of statements
    (
        "(sensitivity s0)(sensitivity s1)(sensitivity s2)(sensitivityorder (s1 s2))(sensitivityorder (s0 s1))",
        "s0 s1 s2\n\noff\n",
    ),
    (
        "(category a)(category c)(category b)(categoryorder (c b a))",
        "\nc b a\noff\n",
    ),
    // a pair that is not joined, a circle, an item above itself
    (
        "(sensitivity s0)(sensitivity s1)(sensitivity s2)(sensitivityorder (s0 s1))(sensitivityorder (s2))",
        "57 0 0 . -\n",
    ),
    (
        "(sensitivity s0)(sensitivity s1)(sensitivity s2)(sensitivityorder (s0 s1))(sensitivityorder (s1 s2))(sensitivityorder (s2 s0))",
        "57 0 0 . -\n",
    ),
    ("(category c)(categoryorder (c c))", "58 0 0 . -\n"),
    (
        "(category a)(category b)(category c)(category d)(categoryorder (a b d))(categoryorder (a c d))",
        "58 0 0 . -\n",
    ),
    // the end of one statement is not joined to the beginning of the next
    (
        "(category a)(category b)(category c)(category d)(categoryorder (a b))(categoryorder (c d))",
        "58 0 0 . -\n",
    ),
    // both are judged
    (
        "(sensitivity s)(sensitivity t)(category c)(category d)",
        "57 0 0 . -\n58 0 0 . -\n",
    ),
    // what follows from other pairs is not said twice
    (
        "(category a)(category b)(category c)(categoryorder (a b c))(categoryorder (a c))(categoryorder (b c))",
        "\na b c\noff\n",
    ),
    // an alias stands for its item, in steps too, and is no item of its own
    (
        "(sensitivity x)(sensitivity y)(sensitivityalias k)(sensitivityaliasactual k y)(sensitivityalias l)(sensitivityaliasactual l k)(sensitivityorder (l x))",
        "y x\n\noff\n",
    ),
    (
        "(category c)(categoryalias k)(categoryaliasactual k c)(categoryorder (k c))",
        "58 0 0 . -\n",
    ),
    // a set of categories takes no part
    (
        "(category c)(category d)(categoryset e (c d))(categoryorder (d c))",
        "\nd c\noff\ne: d c\n",
    ),
    // 51, 52, 53: no order of that name space is judged, and the other one is
    (
        "(sensitivity s)(sensitivity t)(sensitivityalias k)(category c)(category d)(categoryorder (d c))",
        "51 0 48 . k\n",
    ),
    (
        "(sensitivity s)(sensitivity t)(sensitivityalias k)(category c)(category d)",
        "51 0 48 . k\n58 0 0 . -\n",
    ),
    (
        "(category c)(category d)(categoryalias k)(categoryaliasactual k c)(categoryaliasactual k d)",
        "52 0 62 . k\n52 0 87 . k\n",
    ),
    (
        "(category c)(categoryalias k)(categoryalias l)(categoryaliasactual k l)(categoryaliasactual l k)",
        "53 0 27 . k\n53 0 44 . l\n",
    ),
    // qualified names
    (
        "(block b (category c)(category a)(categoryorder (c a)))(category z)(categoryorder (b.a z))",
        "\nb.c b.a z\noff\n",
    ),
    // 54: sets of categories that depend on themselves, in one step or more, told at each declaration; what only leads to one is none
    ("(categoryset s (s))", "54 0 13 . s\n"),
    (
        "(category c)(categoryset a (b c))(categoryset b ((not a)))",
        "54 0 25 . a\n54 0 46 . b\n",
    ),
    ("(categoryset a (b))(categoryset b (b))", "54 0 32 . b\n"),
    (
        "(categoryset s (s))(categoryset s (s))",
        "54 0 13 . s\n54 0 32 . s\n",
    ),
    (
        "(block b (categoryset s (t)))(categoryset t (b.s))",
        "54 0 22 b s\n54 0 42 . t\n",
    ),
    (
        "(category c)(category d)(categoryset s (s))",
        "54 0 37 . s\n58 0 0 . -\n",
    ),
    (
        "(category c)(categoryalias k)(categoryaliasactual k c)(categoryset s (k (range c k) (all)))(categoryset t (s))",
        "\nc\noff\ns: c\nt: c\n",
    ),
    // a set may be declared before those that it names, twice with the same words, and name an alias
    (
        "(category c)(category d)(category e)(categoryorder (c d e))(categoryalias k)(categoryaliasactual k d)(categoryset b (a k))(categoryset a (e))(categoryset n ((not b)))",
        "\nc d e\noff\nb: d e\na: e\nn: c\n",
    ),
    (
        "(category c)(category d)(categoryorder (c d))(categoryset a (c))(categoryset b (a))(categoryset a (c))",
        "\nc d\noff\na: c\nb: c\na: c\n",
    ),
    // a range that is turned is empty, and told when levels are
    (
        "(category a)(category b)(categoryorder (a b))(categoryset e (range b a))",
        "\na b\noff\ne:\n62 0 60 . -\n",
    ),
    // what may go with a sensitivity is what all statements permit it, by any of its names; with another one goes nothing
    (
        "(sensitivity s)(sensitivity t)(sensitivity u)(sensitivityorder (u t s))(sensitivityalias k)(sensitivityaliasactual k s)(category c)(category d)(category e)(categoryorder (c d e))(categoryset b (d e))(sensitivitycategory s (c))(sensitivitycategory u b)(sensitivitycategory k (e))",
        "u t s\nc d e\noff\nb: d e\nu: d e\ns: c e\n",
    ),
    // levels are on, off, and both
    ("(mls true)", "\n\non\n"),
    ("(mls false)", "\n\noff\n"),
    ("(mls true)(mls true)", "\n\non\n"),
    ("(mls true)(mls false)", "59 0 0 . -\n"),
    (
        "(block b (mls false))(mls true)(sensitivity s)(sensitivity t)",
        "57 0 0 . -\n59 0 0 . -\n",
    ),
];

/// The expression of a set over categories from `c0` to `c3`, in this order, of which `s` has the last two; and its categories.
const VALUES: &[(&str, &str)] = &[
    ("c1", " c1"),
    ("(c3 c1)", " c1 c3"),
    ("s", " c2 c3"),
    ("()", ""),
    ("all", " c0 c1 c2 c3"),
    ("(all)", " c0 c1 c2 c3"),
    ("(not (c1 c3))", " c0 c2"),
    ("(not s)", " c0 c1"),
    ("(not all)", ""),
    ("(range c1 c3)", " c1 c2 c3"),
    ("(range c2 c2)", " c2"),
    ("(and (range c0 c2) (not (c1)))", " c0 c2"),
    ("(and all s)", " c2 c3"),
    ("(or (c0) s)", " c0 c2 c3"),
    ("(xor (range c0 c2) s)", " c0 c1 c3"),
    ("((range c0 c1) (xor c3 (and c3 s)))", " c0 c1"),
    // what is behind a range, or an expression in it, is read at its place
    ("((range c0 c1) c3)", " c0 c1 c3"),
    ("((not (and s (range c3 c3))) c3)", " c0 c1 c2 c3"),
];

/// A text with an expression, and the line of its set. None where there is no memory.
fn text_and_line(alloc: Global, expression: &str, want: &str) -> Option<(String, String)> {
    let mut text = String::new(alloc);
    write!(
        text,
        "(category c0)(category c1)(category c2)(category c3)(categoryorder (c0 c1 c2 c3))(categoryset s (c3 c2))"
    )
    .ok()?;
    write!(text, "(categoryset t {expression})").ok()?;
    let mut line = String::new(alloc);
    write!(line, "t:{want}\n").ok()?;
    Some((text, line))
}

/// Whether these are the categories of an expression.
fn are_categories(alloc: Global, expression: &str, want: &str) -> bool {
    let Some((text, line)) = text_and_line(alloc, expression, want) else {
        return false;
    };
    let mut out = String::new(alloc);
    show_texts(alloc, &[text.as_str()], &mut out) && out.as_str().ends_with(line.as_str())
}

#[test]
fn expressions_have_their_categories(rt: HostRuntime) {
    for &(expression, want) in VALUES {
        assert!(rt;
            are_categories(rt.alloc(), expression, want),
            "{expression}"
        );
    }
}

/// Whether these are the lines of a text.
fn are_lines(alloc: Global, text: &str, want: &str) -> bool {
    let mut out = String::new(alloc);
    show_texts(alloc, &[text], &mut out) && out.as_str() == want
}

/// Adds the lines of some texts. False where they are no policy, or there is no memory.
pub(crate) fn show_texts(alloc: Global, texts: &[&str], out: &mut String) -> bool {
    match set_of(alloc, texts) {
        Ok(modules) => show_modules(alloc, &modules, out),
        Err(_) => false,
    }
}

fn show_modules(alloc: Global, modules: &ModuleSet, out: &mut String) -> bool {
    match written(alloc, modules) {
        Ok(program) => show_program(alloc, &program, out),
        Err(_) => false,
    }
}

fn show_program(alloc: Global, program: &Program, out: &mut String) -> bool {
    // What is known of the statements of every program.
    program.statements();
    match inherit(alloc, program) {
        Ok(stands) => show_spaces(alloc, &stands, out),
        Err(_) => false,
    }
}

fn show_spaces(alloc: Global, stands: &Spaces, out: &mut String) -> bool
    requires standings { AreStandings stands.now }
    requires nested { IsNested (statements_in stands.now) }
{
    let Ok(instances) = expand(alloc, stands) else {
        return false;
    };
    // What is known of all that is placed.
    instances.called();
    show_placed(alloc, &instances, out)
}

fn show_placed(alloc: Global, instances: &Instances, out: &mut String) -> bool
    requires { (es : List AnEntry) → AreEntries (namespaces_in instances.now) (items_in instances.now) es → ArePlainNames (namespaces_in instances.now) es }
{
    match declare(alloc, instances) {
        Ok(names) => show_named(alloc, &*instances, &names, out),
        Err(_) => false,
    }
}

fn show_named<'a>(
    alloc: Global,
    instances: &Instances<'_, '_, 'a>,
    names: &Names<'a>,
    out: &mut String,
) -> bool
    requires entries { AreEntries (namespaces_in instances.now) (items_in instances.now) names.now }
    requires plain { ArePlainNames (namespaces_in instances.now) names.now }
    requires clashes { (f : Fault) → ClashFault (items_in instances.now) f → ⊥ }
{
    let Ok(shared) = commons_of(alloc, instances, names) else {
        return false;
    };
    match permissions_of(alloc, instances, names, shared.as_slice()) {
        Ok(lists) => show_by_names(alloc, &*instances, &*names, lists.as_slice(), out),
        Err(_) => false,
    }
}

fn show_by_names<'a>(
    alloc: Global,
    instances: &Instances<'_, '_, 'a>,
    names: &Names<'a>,
    permissions: &[Vec<Bytes>],
    out: &mut String,
) -> bool
    requires entries { AreEntries (namespaces_in instances.now) (items_in instances.now) names.now }
    requires plain { ArePlainNames (namespaces_in instances.now) names.now }
    requires permissions { ArePermissions (namespaces_in instances.now) names.now (items_in instances.now) permissions.now }
    requires clashes { (f : Fault) → ClashFault (items_in instances.now) f → ⊥ }
{
    let enabled = OptSet::of(Vec::new(alloc));
    let Ok(asks) = asks_of(alloc, &*instances, &*names, permissions) else {
        return false;
    };
    match settled(alloc, names, asks, &enabled) {
        Ok(words) => show_words(alloc, instances, names, permissions, &enabled, &words, out),
        Err(_) => false,
    }
}

fn show_words(
    alloc: Global,
    instances: &Instances,
    names: &Names,
    permissions: &[Vec<Bytes>],
    enabled: &OptSet,
    words: &Words,
    out: &mut String,
) -> bool
    requires entries { AreEntries (namespaces_in instances.now) (items_in instances.now) names.now }
    requires plain { ArePlainNames (namespaces_in instances.now) names.now }
    requires permissions { ArePermissions (namespaces_in instances.now) names.now (items_in instances.now) permissions.now }
    requires table { IsTableOf (map (meanings (namespaces_in instances.now) names.now permissions.now (is_in enabled.now)) (items_in instances.now)) words.now }
    requires clashes { (f : Fault) → ClashFault (items_in instances.now) f → ⊥ }
{
    let lookup = Lookup {
        namespaces: instances.namespaces(),
        names,
        enabled,
    };
    show_looked_up(alloc, instances, permissions, words, &lookup, out)
}

fn show_looked_up(
    alloc: Global,
    instances: &Instances,
    permissions: &[Vec<Bytes>],
    words: &Words,
    lookup: &Lookup,
    out: &mut String,
) -> bool
    requires namespaces { lookup.now.namespaces.now ≡ namespaces_in instances.now }
    requires entries { AreEntries lookup.now.namespaces.now (items_in instances.now) lookup.now.names.now }
    requires permissions { ArePermissions lookup.now.namespaces.now lookup.now.names.now (items_in instances.now) permissions.now }
    requires plain { ArePlainNames lookup.now.namespaces.now lookup.now.names.now }
    requires table { IsTableOf (map (meanings lookup.now.namespaces.now lookup.now.names.now permissions.now (is_in lookup.now.enabled.now)) (items_in instances.now)) words.now }
    requires clashes { (f : Fault) → ClashFault (items_in instances.now) f → ⊥ }
{
    // What is known of the numbers of namespaces.
    lookup.namespaces.are_namespaces();
    let Ok(numbering) = numbered(alloc, lookup) else {
        return false;
    };
    let known = Known {
        lookup: *lookup,
        words,
        numbers: numbering.numbers.as_slice(),
        permissions,
    };
    show_orders(alloc, instances, &known, &numbering.sections, out)
}

/// Adds the lines of both orders, whether levels are on, and what names stand for; or the lines of the faults.
fn show_orders(
    alloc: Global,
    instances: &Instances,
    known: &Known,
    sections: &Sections,
    out: &mut String,
) -> bool
    requires namespaces { known.now.lookup.namespaces.now ≡ namespaces_in instances.now }
    requires table { IsTableOf (map (row_in known.now) (items_in instances.now)) known.now.words.now }
    requires known { IsKnown known.now (items_in instances.now) (names_of sections.now) }
    requires apart { AreApart known.now.lookup.names.now (enabled_in known.now) known.now.numbers.now }
    requires clashes { (f : Fault) → ClashFault (items_in instances.now) f → ⊥ }
{
    match orders(alloc, instances, known, sections) {
        Ok(orders) => {
            show_found(sections, &orders, out)
                && show_values(alloc, instances, known, sections, &orders, out)
                && show_levels(alloc, instances, known, sections, &orders, out)
        }
        Err(Failure::Faults(faults)) => show_faults(alloc, &faults, out),
        Err(Failure::NoMemory) => false,
    }
}

/// Adds the lines of sets of categories, and of the categories that may go with sensitivities.
fn show_values(
    alloc: Global,
    instances: &Instances,
    known: &Known,
    sections: &Sections,
    orders: &Orders,
    out: &mut String,
) -> bool
    requires namespaces { known.now.lookup.namespaces.now ≡ namespaces_in instances.now }
    requires table { IsTableOf (map (row_in known.now) (items_in instances.now)) known.now.words.now }
    requires known { IsKnown known.now (items_in instances.now) (names_of sections.now) }
    requires apart { AreApart known.now.lookup.names.now (enabled_in known.now) known.now.numbers.now }
    requires orders { AreOrders (items_in instances.now) (enabled_in known.now) sections.now.sensitivities.items sections.now.categories.items orders.now }
    requires none { (f : Fault) → OrderFault (items_in instances.now) (enabled_in known.now) f → ⊥ }
{
    let Ok(helds) = category_values(alloc, instances, known, sections, orders) else {
        return false;
    };
    let Ok(sets) = permitted(alloc, instances, known, sections, orders, helds.as_slice()) else {
        return false;
    };
    show_sets(instances, known, sections, orders, helds.as_slice(), out)
        && show_permitted(sections, orders, sets.as_slice(), out)
}

fn show_found(sections: &Sections, orders: &Orders, out: &mut String) -> bool {
    if !show_names(
        sections.sensitivities.as_slice(),
        orders.sensitivities.as_slice(),
        out,
    ) {
        return false;
    }
    if !show_names(
        sections.categories.as_slice(),
        orders.categories.as_slice(),
        out,
    ) {
        return false;
    }
    let switch = if orders.are_on { "on\n" } else { "off\n" };
    out.push_str(switch).is_ok()
}

/// Adds a line for each statement of a set of categories: its name, and its categories.
fn show_sets(
    instances: &Instances,
    known: &Known,
    sections: &Sections,
    orders: &Orders,
    helds: &[Held],
    out: &mut String,
) -> bool {
    for at in 0..instances.len() {
        if !show_set(instances, known, at, sections, orders, helds, out) {
            return false;
        }
    }
    true
}

/// Adds the line of the statement at a place, if it is one of a set of categories.
fn show_set(
    instances: &Instances,
    known: &Known,
    at: usize,
    sections: &Sections,
    orders: &Orders,
    helds: &[Held],
    out: &mut String,
) -> bool
    requires { at < length (items_in instances.now) }
{
    let statement = instances.statement_there(at);
    let Some(name) = statement.declared_name() else {
        return true;
    };
    if statement.keyword != Keyword::CategorySet {
        return true;
    }
    let Some(value) = set_named(known.lookup.names.entries(), name.bytes, helds) else {
        return false;
    };
    show_value(
        name.bytes,
        &value,
        sections.categories.as_slice(),
        orders.categories.as_slice(),
        out,
    )
}

/// The set of categories of this name.
fn set_named(entries: &[Entry], name: &[u8], helds: &[Held]) -> Option<Categories> {
    let number = entries.iter().position(|entry| is_set_named(entry, name))?;
    match helds.get(number)? {
        Held::Set(value) => Some(*value),
        Held::Nothing | Held::Category(_) => None,
    }
}

fn is_set_named(entry: &Entry, name: &[u8]) -> bool {
    entry.kind == Kind::CategorySet && entry.name.as_slice() == name
}

/// Adds a line for each sensitivity that categories may go with: its name, and these categories.
fn show_permitted(
    sections: &Sections,
    orders: &Orders,
    sets: &[Categories],
    out: &mut String,
) -> bool {
    let row = orders.sensitivities.as_slice();
    for place in 0..row.len() {
        let (Some(name), Some(set)) = (
            sections.sensitivities.as_slice().get(row[place]),
            sets.get(place),
        ) else {
            return false;
        };
        if *set != Categories::none()
            && !show_value(
                name.as_slice(),
                set,
                sections.categories.as_slice(),
                orders.categories.as_slice(),
                out,
            )
        {
            return false;
        }
    }
    true
}

fn show_value(
    name: &[u8],
    value: &Categories,
    names: &[Bytes],
    order: &[usize],
    out: &mut String,
) -> bool {
    if !str::from_utf8(name).is_ok_and(|text| out.push_str(text).is_ok()) {
        return false;
    }
    if out.push_str(":").is_err() {
        return false;
    }
    for place in 0..order.len() {
        if place < MOST_CATEGORIES && value.has(place) {
            if out.push_str(" ").is_err() || !show_name(names, order[place], out) {
                return false;
            }
        }
    }
    out.push_str("\n").is_ok()
}

/// Adds the names of these numbers, in their order.
fn show_names(names: &[Bytes], row: &[usize], out: &mut String) -> bool {
    for place in 0..row.len() {
        if place > 0 && out.push_str(" ").is_err() {
            return false;
        }
        if !show_name(names, row[place], out) {
            return false;
        }
    }
    out.push_str("\n").is_ok()
}

pub(crate) fn show_name(names: &[Bytes], number: usize, out: &mut String) -> bool {
    match names.get(number) {
        Some(name) => str::from_utf8(name.as_slice()).is_ok_and(|text| out.push_str(text).is_ok()),
        None => false,
    }
}

#[test]
fn statements_fix_one_order_or_none(rt: HostRuntime) {
    for &(text, want) in ROWS {
        assert!(rt; are_lines(rt.alloc(), text, want), "{text}");
    }
}

/// Both orders, with an alias, a set in a set, and a range of a user.
const REFUSED: (&str, &str) = (
    "(mls true)(sensitivity s)(sensitivity t)(sensitivityalias k)(sensitivityaliasactual k t)(sensitivityorder (k s))(category c)(category d)(categoryorder (c d))(categoryset a (c))(categoryset b (a d))(sensitivitycategory s b)(level l (s (c)))(levelrange r ((k) l))(user u)(userrange u r)",
    "t s\nc d\non\na: c\nb: c d\ns: c d\nl: s c\nr: t - s c\nu: t - s c\n",
);

#[test]
fn a_refused_growth_fixes_no_other_order(rt: HostRuntime) {
    let (text, want) = REFUSED;
    // Where one growth is refused nothing is told, and once more all of it is.
    let is_told = are_lines(rt.alloc(), text, want) || are_lines(rt.alloc(), text, want);
    assert!(rt; is_told, "{text}");
}

/// How many sensitivities and categories pass (60): the word that declares them, how many there are, whether their order is said, and the
/// faults.
const LIMITS: &[(&str, usize, bool, &str)] = &[
    ("sensitivity", 256, true, ""),
    ("sensitivity", 257, true, "60 0 0 . sensitivities\n"),
    (
        "sensitivity",
        257,
        false,
        "57 0 0 . -\n60 0 0 . sensitivities\n",
    ),
    ("category", 1024, true, ""),
    ("category", 1025, true, "60 0 0 . categories\n"),
    ("category", 1025, false, "58 0 0 . -\n60 0 0 . categories\n"),
];

/// A text that declares so many, `x0` first, and lists them in one order statement if that is wanted.
fn declaring(alloc: Global, word: &str, count: usize, is_ordered: bool) -> Result<String, Fail> {
    let mut text = String::new(alloc);
    for number in 0..count {
        write!(text, "({word} x{number})")?;
    }
    if is_ordered {
        write!(text, "({word}order (")?;
        for number in 0..count {
            write!(text, "x{number} ")?;
        }
        write!(text, "))")?;
    }
    Ok(text)
}

#[test]
fn there_are_no_more_than_pass(rt: HostRuntime) -> Result<(), Fail> {
    for &(word, count, is_ordered, want) in LIMITS {
        let text = declaring(rt.alloc(), word, count, is_ordered)?;
        let mut out = String::new(rt.alloc());
        assert!(rt;
            show_texts(rt.alloc(), &[text.as_str()], &mut out),
            "{word} {count}"
        );
        let end = if want == "" { "off\n" } else { want };
        assert!(rt; out.as_str().ends_with(end), "{word} {count}");
    }
    Ok(())
}
