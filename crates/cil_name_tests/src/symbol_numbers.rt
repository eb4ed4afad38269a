//! The numbers of declared symbols.

ghost use Rattle.cil_macros.specs.Items.{items_in, namespaces_in};
ghost use Rattle.cil_names.specs.Entries.{AreEntries};

use crate::answers::{ByNames, Named, NamedQuestion, is_answer, row_holds, text_of};
use crate::optional_choices::flags;
use cil_known::{Numbering, numbered};
use cil_names::{Lookup, OptSet};
use cil_syntax::{Bytes, Kind};
use std::alloc::Global;

/// The users, roles, types and classes, and the number of each entry, where these optionals are enabled.
#[derive(Drop)]
struct Numbers(&'static [usize]);

impl NamedQuestion for Numbers {
    fn answer(&self, alloc: Global, all: &Named, out: &mut String) -> bool {
        match flags(alloc, self.0) {
            Some(enabled) => show_numbered(alloc, all, &enabled, out),
            None => false,
        }
    }
}

fn show_numbered(alloc: Global, all: &Named, enabled: &OptSet, out: &mut String) -> bool
    requires { AreEntries (namespaces_in all.now.instances.now) (items_in all.now.instances.now) all.now.names.now }
{
    let lookup = Lookup {
        namespaces: all.instances.namespaces(),
        names: &*all.names,
        enabled,
    };
    match numbered(alloc, &lookup) {
        Ok(numbering) => show_numbers(&numbering, out),
        Err(_) => false,
    }
}

fn show_numbers(numbering: &Numbering, out: &mut String) -> bool {
    for kind in [Kind::User, Kind::Role, Kind::Type_, Kind::Class] {
        if !show_names(out, numbering.sections.names(kind)) {
            return false;
        }
    }
    for number in numbering.numbers.as_slice() {
        if write!(out, " {number}").is_err() {
            return false;
        }
    }
    true
}

fn show_names(out: &mut String, names: &[Bytes]) -> bool {
    for (i, name) in names.iter().enumerate() {
        let front = if i > 0 { " " } else { "(" };
        if out.push_str(front).is_err() || out.push_str(text_of(name.as_slice())).is_err() {
            return false;
        }
    }
    out.push_str(if names.is_empty() { "()" } else { ")" })
        .is_ok()
}

/// A module, and behind an arrow its symbols and the numbers of its entries, by their names, name spaces and namespaces.
const NUMBERED: &[&str] = &[
    " => ()(object_r)()() 0",
    // Each kind in a section of its own.
    "(class c ())(user u)(role z)(block p (class c ())(role r)(block q (type t)(user u)))(block r (role a)) => (p.q.u u)(object_r p.r r.a z)(p.q.t)(c p.c) 2 0 1 0 1 0 1 0 3",
    // Qualified names are in byte order. A hyphen comes before the dot, digits and letters come behind it.
    "(type p)(type p-x)(type p0)(type pa)(type q)(block p (type X)(type x)(block q (type x)))(block r (type a)) => ()(object_r)(p p-x p.X p.q.x p.x p0 pa q r.a)() 2 8 0 0 1 5 6 7 4 3",
    // Aliases, attributes, class maps and macros have no section.
    "(typeattribute a)(type b)(roleattribute b)(userattribute b)(classmap b (x))(typealias c)(macro c ())(type d) => ()(object_r)(b d)() 0 0 0 0 0 0 0 1 0",
    // A type and a role of one name.
    "(role a)(type x)(role x) => ()(a object_r x)(x)() 0 1 0 2",
];

/// Optionals with the numbers 0, 1, 5, in the first one, and 7: they have the types `a`, `c`, `c` and `p.a`.
const OPTIONALS: &str =
    "(optional o (type a)(optional q (type c)))(optional s (type c))(type b)(block p (optional t (type a)))";

const ENABLED: &[(&[usize], &str)] = &[
    (&[], "()(object_r)(b)() 0 0 0 0 0"),
    (&[0], "()(object_r)(a b)() 0 0 1 0 0"),
    (&[7], "()(object_r)(b p.a)() 0 1 0 0 0"),
    (&[0, 5, 7], "()(object_r)(a b c p.a)() 0 3 1 2 0"),
    (&[1], "()(object_r)(b c)() 0 0 0 1 0"),
];

#[test]
fn symbols_are_numbered_by_their_names(rt: HostRuntime) {
    for row in NUMBERED {
        assert!(rt; row_holds(rt.alloc(), row, &ByNames(Numbers(&[]))), "{row}");
    }
    for &(enabled, want) in ENABLED {
        let question = ByNames(Numbers(enabled));
        assert!(rt;
            is_answer(rt.alloc(), &[OPTIONALS], &question, want),
            "{enabled:?}"
        );
    }
}
