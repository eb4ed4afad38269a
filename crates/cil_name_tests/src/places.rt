//! Where statements are, in which scopes their words are looked up, and what these mean: arguments, or themselves; and in which branch of
//! which booleanif they are.

use crate::answers::{Question, row_holds, text_of};
use cil_blocks::spelled::spelled;
use cil_blocks::{Namespaces, ScopeList, Spaces};
use cil_macros::{Instances, Meaning};
use cil_syntax::Word;
use std::alloc::Global;

/// A module, and behind an arrow a line for each statement that is there by blocks, in order: its number, behind a stroke the place in this list of
/// the block or the blockinherit that opened it, its namespace, and behind a colon its scope. A dot alone is the global namespace.
/// In a last line are those that calls bring, each with the place of its call. Places and numbers count from 0.
const PLACES: &[&str] = &[
    " => ",
    "(type x)(block b (type y)) => 0 .: .\n1 .: .\n2/1 b: b .\n",
    "(block a (block c (type x))) => 0 .: .\n1/0 a: a .\n2/1 a.c: a.c a .\n",
    // A block that is inherited in another one, and one in a block of its own: what is round that one comes behind.
    "(block p (type x))(block n (blockinherit p)) => 0 .: .\n2 .: .\n1/0 p: p .\n3/1 n: n .\n1/3 n: n .\n",
    "(block l (block p (type x)))(block n (blockinherit l.p)) => 0 .: .\n3 .: .\n1/0 l: l .\n4/1 n: n .\n2/2 l.p: l.p l .\n2/3 n: n l .\n",
    "(block l (block t (blockabstract t)(type x)))(block o (block n (blockinherit l.t))) => 0 .: .\n4 .: .\n1/0 l: l .\n5/1 o: o .\n6/3 o.n: o.n o .\n2/4 o.n: o.n o l .\n3/4 o.n: o.n o l .\n",
    // A block in what is inherited: its new namespace comes first.
    "(block l (block p (block q (type x))))(block n (blockinherit l.p)) => 0 .: .\n4 .: .\n1/0 l: l .\n5/1 n: n .\n2/2 l.p: l.p l .\n2/3 n: n l .\n3/4 l.p.q: l.p.q l.p l .\n3/5 n.q: n.q n l .\n",
    "(block l (block p (block c (type x))))(blockinherit l.p) => 0 .: .\n4 .: .\n1/0 l: l .\n2/1 .: l .\n2/2 l.p: l.p l .\n3/3 c: c l .\n3/4 l.p.c: l.p.c l.p l .\n",
    "(block l (block p (type x)))(block m (block q (blockinherit l.p)))(block n (blockinherit m.q)(blockinherit l.p)) => 0 .: .\n3 .: .\n6 .: .\n1/0 l: l .\n4/1 m: m .\n7/2 n: n .\n8/2 n: n .\n2/3 l.p: l.p l .\n5/4 m.q: m.q m .\n5/5 n: n m .\n2/6 n: n l .\n2/8 m.q: m.q m l .\n2/9 n: n m l .\n",
    "(block p (block x (type y)))(block n (blockinherit p)(blockinherit p)) => 0 .: .\n3 .: .\n1/0 p: p .\n4/1 n: n .\n5/1 n: n .\n2/2 p.x: p.x p .\n1/3 n: n .\n1/4 n: n .\n2/6 n.x: n.x n .\n2/7 n.x: n.x n .\n",
    "(block a (blockabstract a)(block c (blockabstract c)(type x)))(block n (blockinherit a))(block k (blockinherit a.c)) => 0 .: .\n5 .: .\n7 .: .\n6/1 n: n .\n8/2 k: k .\n1/3 n: n .\n2/3 n: n .\n3/4 k: k a .\n4/4 k: k a .\n",
    "(block g (block t (blockabstract t)(type x)))(block h (block u (blockabstract u)(blockinherit g.t)))(block n (blockinherit h.u)) => 0 .: .\n4 .: .\n8 .: .\n1/0 g: g .\n5/1 h: h .\n9/2 n: n .\n6/5 n: n h .\n7/5 n: n h .\n2/7 n: n h g .\n3/7 n: n h g .\n",
    // Blocks between inherited blocks come before all that is round a target.
    "(block g (block t (block d (type x))))(block h (block u (blockabstract u)(block c (blockinherit g.t))))(block n (blockinherit h.u)) => 0 .: .\n4 .: .\n9 .: .\n1/0 g: g .\n5/1 h: h .\n10/2 n: n .\n2/3 g.t: g.t g .\n6/5 n: n h .\n7/5 n: n h .\n3/6 g.t.d: g.t.d g.t g .\n8/8 n.c: n.c n h .\n2/10 n.c: n.c n h g .\n3/11 n.c.d: n.c.d n.c n h g .\n",
    "(block lib (block w (type x))(block t (blockabstract t)(blockinherit w)))(block n (blockinherit lib.t)) => 0 .: .\n6 .: .\n1/0 lib: lib .\n3/0 lib: lib .\n7/1 n: n .\n2/2 lib.w: lib.w lib .\n4/4 n: n lib .\n5/4 n: n lib .\n2/7 n: n lib .\n",
    "(block a (block c (type x))(blockinherit c)) => 0 .: .\n1/0 a: a .\n3/0 a: a .\n2/1 a.c: a.c a .\n2/2 a: a .\n",
    "(block a (block c (type x))(block d (blockinherit c))) => 0 .: .\n1/0 a: a .\n3/0 a: a .\n2/1 a.c: a.c a .\n4/2 a.d: a.d a .\n2/4 a.d: a.d a .\n",
    "(block a (block b (block c (type x)))(block d (blockinherit b.c))) => 0 .: .\n1/0 a: a .\n4/0 a: a .\n2/1 a.b: a.b a .\n5/2 a.d: a.d a .\n3/3 a.b.c: a.b.c a.b a .\n3/4 a.d: a.d a a.b .\n",
    // What calls bring: the nearest calls first, and those of a template in each place where it is inherited.
    "(macro a () (type x))(macro b () (call a ())(type y))(call b ()) => 0 .: .\n2 .: .\n5 .: .\n| 3/2 4/2 1/3\n",
    "(block a (blockabstract a)(macro m () (type x))(call m ()))(block n (blockinherit a))(block k (blockinherit a)) => 0 .: .\n5 .: .\n7 .: .\n6/1 n: n .\n8/2 k: k .\n1/3 n: n .\n2/3 n: n .\n4/3 n: n .\n1/4 k: k .\n2/4 k: k .\n4/4 k: k .\n| 3/7 3/10\n",
    "(call m ())(macro m () (type x)(type y)) => 0 .: .\n1 .: .\n| 2/0 3/0\n",
];

/// What is placed in a module.
struct Placed;

impl Question for Placed {
    fn answer(&self, alloc: Global, instances: &Instances, out: &mut String) -> bool {
        show_standing(alloc, out, instances.spaces()) && show_called(out, instances)
    }
}

/// Adds a line for what calls bring, if they bring something.
fn show_called(out: &mut String, instances: &Instances) -> bool {
    for (i, one) in instances.called().iter().enumerate() {
        let (statement, opener) = (one.statement, one.opener);
        let bar = if i > 0 { "" } else { "|" };
        if write!(out, "{bar} {statement}/{opener}").is_err() {
            return false;
        }
    }
    instances.called().is_empty() || out.push_str("\n").is_ok()
}

/// Adds a line for each statement that is there by blocks.
fn show_standing(alloc: Global, out: &mut String, spaces: &Spaces) -> bool {
    for (rank, entry) in spaces.entries().iter().enumerate() {
        if !show_opener(out, entry.statement, entry.opener)
            || !show_place(alloc, out, spaces, rank)
        {
            return false;
        }
    }
    true
}

/// Adds the number of a statement, and the place of what opened it.
fn show_opener(out: &mut String, statement: u32, opener: Option<u32>) -> bool {
    match opener {
        Some(opener) => write!(out, "{statement}/{opener} ").is_ok(),
        None => write!(out, "{statement} ").is_ok(),
    }
}

fn show_place(alloc: Global, out: &mut String, spaces: &Spaces, rank: usize) -> bool {
    let Some(number) = spaces.space(rank) else {
        return false;
    };
    show_space(alloc, out, spaces.namespaces(), number) && show_scope(alloc, out, spaces, rank)
}

fn show_scope(alloc: Global, out: &mut String, spaces: &Spaces, rank: usize) -> bool {
    let mut scope = ScopeList::new(alloc);
    spaces.scope_into(alloc, rank, &mut scope).is_ok()
        && out.push_str(":").is_ok()
        && show_spaces(alloc, out, spaces.namespaces(), scope.as_slice())
}

fn show_spaces(alloc: Global, out: &mut String, spaces: &Namespaces, numbers: &[usize]) -> bool {
    for &number in numbers {
        if out.push_str(" ").is_err() || !show_space(alloc, out, spaces, number) {
            return false;
        }
    }
    out.push_str("\n").is_ok()
}

/// Adds the name of a namespace; a dot alone for the global one.
pub(crate) fn show_space(
    alloc: Global,
    out: &mut String,
    spaces: &Namespaces,
    number: usize,
) -> bool {
    if number == 0 {
        return out.push_str(".").is_ok();
    }
    if number > spaces.len() {
        return false;
    }
    match spelled(alloc, spaces, number) {
        Ok(space) => out.push_str(text_of(space.as_slice())).is_ok(),
        Err(_) => false,
    }
}

#[test]
fn all_that_is_placed_has_its_namespace_and_its_scope(rt: HostRuntime) {
    for row in PLACES {
        assert!(rt; row_holds(rt.alloc(), row, &Placed), "{row}");
    }
}

/// A module, and behind an arrow for each placed statement of two words, in order, its place and what its words mean, with the place in
/// whose scope a word is looked up behind the sign `@`; and for each statement in a branch the place of the booleanif and the value of the
/// branch. What is at the top, in an optional, in a block or in a body is in none; what a call in a branch brings is in that of the call.
const MEANINGS: &[&str] = &[
    " => ",
    "(roletype r a) => 0: r@0 a@0\n",
    // An argument is looked up where its call is, other words at their own place; a parameter serves words of its own kind.
    "(macro m ((role x)(type y)) (roletype x y)(roletype r x))(call m (s t)) => 2: s@1 t@1\n3: r@3 x@3\n",
    // One that is handed on, and what a body declares: that is looked up where the outermost call is.
    "(macro a ((type y)) (type q)(roletype r y)(roletype r q))(macro b ((type x)) (call a (x)))(call b (t)) => 5: r@5 t@2\n6: r@6 q@2\n",
    // A call in a template keeps the scope of the place where the template is inherited.
    "(block lib (type p)(macro m ((type arg)) (roletype a arg)))(block tpl (blockabstract tpl)(type p)(call lib.m (p)))(block n (blockinherit tpl)) => 9: a@9 p@8\n",
    "(type a)(optional o (type b))(block n (type c))(macro m () (type d)(optional p (type e)))(call m) => ",
    "(boolean b true)(macro m () (allow a a (c (p))))(booleanif b (true (allow a a (c (p)))(call m)) (false (auditallow a a (c (p))))) => 3 in 2 true\n4 in 2 true\n5 in 2 false\n6 in 2 true\n",
];

/// Adds what a word means at a place.
fn show_word<'a>(
    out: &mut String,
    instances: &Instances<'_, '_, 'a>,
    at: usize,
    word: &Word<'a>,
) -> bool {
    if at >= instances.len() {
        return false;
    }
    let Meaning::Plain(meant) = instances.meaning(at, word) else {
        return false;
    };
    let bytes = text_of(meant.bytes.as_slice());
    match meant.scope {
        Some(scope) => write!(out, " {bytes}@{scope}").is_ok(),
        None => write!(out, " {bytes}").is_ok(),
    }
}

/// Adds what the words of a statement mean, if it has two.
fn show_words(out: &mut String, instances: &Instances, at: usize) -> bool {
    if at >= instances.len() {
        return false;
    }
    let Some(statement) = instances.spaces().statements().get(instances.statement(at)) else {
        return false;
    };
    let Some(words) = statement.two_words() else {
        return true;
    };
    write!(out, "{at}:").is_ok()
        && show_word(out, instances, at, &words.first)
        && show_word(out, instances, at, &words.second)
        && out.push_str("\n").is_ok()
}

/// Adds the branch in which a statement is, if it is in one.
fn show_branch(out: &mut String, instances: &Instances, at: usize) -> bool {
    match instances.branch(at) {
        Some(branch) => write!(out, "{at} in {} {}\n", branch.at, branch.value).is_ok(),
        None => true,
    }
}

/// What the words of all placed statements mean, and in which branches these are.
struct Meanings;

impl Question for Meanings {
    fn answer(&self, _alloc: Global, instances: &Instances, out: &mut String) -> bool {
        for at in 0..instances.len() {
            if !show_words(out, instances, at) || !show_branch(out, instances, at) {
                return false;
            }
        }
        true
    }
}

#[test]
fn words_mean_arguments_or_themselves(rt: HostRuntime) {
    for row in MEANINGS {
        assert!(rt; row_holds(rt.alloc(), row, &Meanings), "{row}");
    }
}
