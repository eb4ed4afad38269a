//! What placed words name, and the entries that they could name, whatever is enabled.

ghost use Rattle.cil_macros.specs.Items.{items_in, namespaces_in};
ghost use Rattle.cil_names.specs.Entries.{AreEntries};
ghost use Rattle.cil_names.specs.Unresolved.{ArePermissions};
ghost use Rattle.std.specs.Prelude.{◌<◌, length};

use crate::answers::{ByNames, Named, NamedQuestion, is_answer, row_holds, text_of};
use crate::look_ups::word;
use crate::made_names::are_numbers;
use cil_macros::Instances;
use cil_names::{Meaning, OptSet, Words, word_asked};
use cil_syntax::Sign;
use cil_words::{Asks, asks_of, judged, settled};
use std::alloc::Global;

/// What the words of the statement at a place name, in a module without optionals.
#[derive(Drop)]
struct NamedWords(usize);

impl NamedQuestion for NamedWords {
    fn answer(&self, alloc: Global, all: &Named, out: &mut String) -> bool {
        let Some(words) = words_of(alloc, all) else {
            return false;
        };
        match asks_of(alloc, all.instances, all.names, all.permissions) {
            Ok(asks) => show_row(out, &asks, self.0, words.row(self.0)),
            Err(_) => false,
        }
    }
}

/// What words name. None where one names nothing, or there is no memory.
fn words_of(alloc: Global, all: &Named) -> Option<Words>
    requires entries { AreEntries (namespaces_in all.now.instances.now) (items_in all.now.instances.now) all.now.names.now }
    requires permissions { ArePermissions (namespaces_in all.now.instances.now) all.now.names.now (items_in all.now.instances.now) all.now.permissions.now }
{
    let enabled = OptSet::of(Vec::new(alloc));
    let asks = asks_of(alloc, all.instances, all.names, all.permissions).ok()?;
    if judged(alloc, all.instances, all.names, &asks, &enabled).is_err() {
        return None;
    }
    settled(alloc, all.names, asks, &enabled).ok()
}

/// Adds the number of the entry that each word names, or that of its permission behind a letter.
fn show_row(out: &mut String, asks: &Asks, at: usize, row: &[Meaning]) -> bool {
    for (i, word) in row.iter().enumerate() {
        let front = if i > 0 { " " } else { "[" };
        let letter = if asks.number(at, i).is_some() {
            "p"
        } else {
            ""
        };
        let Some(value) = word.entry() else {
            return false;
        };
        if write!(out, " {letter}{value}").is_err() {
            return false;
        }
    }
    true
}

/// A place, and a text with behind an arrow what the words there name: in calls, and in operators, which say nothing by themselves. More are
/// in `rows/names.session`.
const NAMED: &[(usize, &str)] = &[
    (
        3,
        "(class c (q p))(macro m ((type x)) (allow x self (c (p q))))(type a)(call m (a)) =>  2 0",
    ),
    (
        4,
        "(class c (q p))(macro m ((type x)) (allow x self (c (p q))))(type a)(call m (a)) =>  0 1 p0 p1",
    ),
    (
        2,
        "(class c (p q))(type a)(allow a self (c (and (p (q)) (not (xor (q) p))))) =>  0 1 p0 p1 p1 p0",
    ),
];

#[test]
fn words_name_entries(rt: HostRuntime) {
    for &(at, row) in NAMED {
        assert!(rt;
            row_holds(rt.alloc(), row, &ByNames(NamedWords(at))),
            "{row}"
        );
    }
}

/// A class word, a permission word, the namespaces of their scope, and the number of the class that is named.
type Row = (
    &'static [u8],
    &'static [u8],
    &'static [usize],
    Option<usize>,
);

/// Three namespaces, which have the numbers in the order in which they are reached: `p` the number 1, `r` 2. The classes are the entries 0
/// and 1.
const TEXT: &str = "(class c (q))(block p (class c (p)))(block r (type x))";

/// The class of a permission is the first one of the scope. Others are rows of `rows/names.session`.
const PERMISSIONS: &[Row] = &[
    (b"c", b".p", &[1, 0], None),
    (b"c", b"p", &[2, 1, 0], Some(1)),
    (b".p.c", b"p", &[2, 0], Some(1)),
];

#[derive(Drop)]
struct PermissionWord(Row);

impl NamedQuestion for PermissionWord {
    fn answer(&self, _alloc: Global, all: &Named, _out: &mut String) -> bool {
        let (class, permission, scope, want) = self.0;
        let (names, spaces) = (all.names, all.instances.namespaces());
        let class = word(class, Sign::Classes);
        let permission = word(permission, Sign::Permission);
        are_numbers(spaces, scope)
            && names.resolve_permission(spaces, all.permissions, &class, &permission, scope) == want
    }
}

#[test]
fn permission_words_name_the_class_that_has_them(rt: HostRuntime) {
    for &row in PERMISSIONS {
        let is_so = is_answer(rt.alloc(), &[TEXT], &ByNames(PermissionWord(row)), "");
        assert!(rt; is_so, "{row:?}");
    }
}

/// A text, and behind an arrow each word of its statements with the numbers of the entries that it could name: these are in the order of
/// their names, and then of their namespaces.
const LISTED: &[&str] = &[
    "(type t)(block p (type t)(role r)(roletype r t)) => r: 1; t: 3 2; ",
    "(type t)(block p (type t)(roletype object_r .t)) => object_r: 0; .t: 1; ",
    "(class t (p))(roletype object_r t) => object_r: 0; t: -; ",
    // A class word, and then its permissions: they are those of the first class that it names.
    "(type t)(class c (r))(block p (class c (w))(allow t self (c (r w)))) => t: 3; c: 1 0; r: -; w: 1; ",
    "(type t)(allow t self (c (r))) => t: 1; c: -; r: -; ",
    "(class c (r))(common k (x))(classcommon c .k)(allow r c (c (r x))) => c: 0; .k: 1; r: -; c: -; c: 0; r: 0; x: 0; ",
    // A call, and a statement of the body: an argument is looked up where the call stands.
    "(macro m ((type x)) (roletype object_r x))(type t)(block p (type t)(call m (t))) => m: 0; t: 3 2; object_r: 1; t: 3 2; ",
    // An argument that is a list, and the names in a constraint.
    "(sensitivity s)(category c)(macro m ((categoryset p)) (level l (s (not p))))(call m ((c c))) => m: 2; c: 0; c: 0; s: 4; c: 0; c: 0; ",
    "(class f (p))(type t)(constrain (f (p)) (or (eq t1 (t t)) (eq r1 r2))) => f: 0; p: 0; t: 2; t: 2; ",
    "(block a (type t))(block b (blockinherit a)) => ",
];

struct Listed;

impl NamedQuestion for Listed {
    fn answer(&self, alloc: Global, all: &Named, out: &mut String) -> bool {
        match asks_of(alloc, all.instances, all.names, all.permissions) {
            Ok(asks) => show_lists(alloc, out, all.instances, &asks),
            Err(_) => false,
        }
    }
}

/// Adds each word of all statements with its candidates. False where there is no memory, or as many words as lists.
fn show_lists(alloc: Global, out: &mut String, instances: &Instances, asks: &Asks) -> bool {
    for at in 0..instances.len() {
        if !show_statement(alloc, out, instances, asks, at) {
            return false;
        }
    }
    true
}

fn show_statement(
    alloc: Global,
    out: &mut String,
    instances: &Instances,
    asks: &Asks,
    at: usize,
) -> bool
    requires { at < length (items_in instances.now) }
{
    for number in 0..asks.count(at) {
        let Ok(Some(found)) = word_asked(alloc, instances, at, number) else {
            return false;
        };
        let bytes = text_of(found.word.bytes.as_slice());
        if write!(out, "{bytes}:").is_err() || !show_entries(out, asks.word(at, number)) {
            return false;
        }
    }
    matches!(word_asked(alloc, instances, at, asks.count(at)), Ok(None))
}

fn show_entries(out: &mut String, numbers: &[u32]) -> bool {
    for number in numbers {
        if write!(out, " {number}").is_err() {
            return false;
        }
    }
    out.push_str(if numbers.is_empty() { " -; " } else { "; " })
        .is_ok()
}

fn is_listed(alloc: Global, row: &str) -> bool {
    row_holds(alloc, row, &ByNames(Listed))
}

#[test]
fn words_could_name_these(rt: HostRuntime) {
    for row in LISTED {
        assert!(rt; is_listed(rt.alloc(), row), "{row}");
    }
}

/// The same of rows of several instances.
const ASKED: &[&str] = &[
    // Statements without words stand between others.
    "(type t)(roletype object_r t)(role r)(block p (type u))(roletype r t) => object_r: 0; t: 2; r: 1; t: 2; ",
    // A class word with two candidates: its permissions are those of the first one.
    "(class c (p))(type t)(block a (class c (q))(block b (allow t self (c (q p))))) => t: 3; c: 1 0; q: 1; p: -; ",
    // Arguments that are texts are not looked up, though one of them has the name of a type; the argument between them is. One that
    // is handed on is none either.
    "(macro m ((name x)(type y)(string z)) (roletype object_r y))(type t)(type u)(call m (u t \"v w\")) => m: 0; t: 2; object_r: 1; t: 2; ",
    "(macro k ((string s)))(macro m ((string p)) (call k (p)))(type t)(call m (t))(call k (\"t\")) => m: 1; k: 0; k: 0; ",
    // A statement in an optional.
    "(class c (p))(type t)(optional o (allow t self (c (p)))) => t: 2; c: 0; p: 0; ",
];

// A list may be there when its cell has no room.
#[test]
fn a_refused_growth_of_the_table(rt: HostRuntime) {
    for row in ASKED {
        assert!(rt;
            is_listed(rt.alloc(), row) || is_listed(rt.alloc(), row),
            "{row}"
        );
    }
}
