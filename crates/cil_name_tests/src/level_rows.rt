//! Statements of levels: which names clash, which arguments fit, and which words name nothing. What is wrong with the levels themselves
//! is not asked here.

use crate::answers::{ByNames, Question, show_faults};
use crate::optional_choices::Judged;
use cil_blocks::{Spaces, inherit};
use cil_declare::declare;
use cil_macros::{Instances, expand};
use cil_modset::ModuleSet;
use cil_syntax::{Failure, Program, written};
use cil_text_tests::set_of;
use std::alloc::Global;

/// A text, and its faults of the steps from blocks to words, where no optional is in force.
const ROWS: &[(&str, &str)] = &[
    // 36: a level with an empty set of categories is another than one without a set
    (
        "(sensitivity s)(level l (s))(level l (s ()))",
        "36 0 22 . l\n36 0 35 . l\n",
    ),
    (
        "(sensitivity s)(level l (s))(level l (s))(levelrange l (l l))",
        "",
    ),
    (
        "(category c)(category d)(categoryset x (c d))(categoryset x (c d))",
        "",
    ),
    (
        "(category c)(category d)(categoryset x (c d))(categoryset x (d c))",
        "36 0 37 . x\n36 0 58 . x\n",
    ),
    (
        "(category c)(categoryset x (and c c))(categoryset x (or c c))",
        "36 0 25 . x\n36 0 50 . x\n",
    ),
    // 36: a name space has more kinds than one
    (
        "(sensitivity a)(sensitivityalias a)(category b)(categoryset b (b))(categoryalias d)(category d)",
        "36 0 13 . a\n36 0 33 . a\n36 0 45 . b\n36 0 60 . b\n36 0 81 . d\n36 0 93 . d\n",
    ),
    // 36: contents with lists of arguments put in
    (
        "(category c)(sensitivity s)(macro m ((categoryset p)) (level l (s p)))(call m ((c)))(call m (c))(call m ((c)))",
        "36 0 61 . l\n",
    ),
    (
        "(category c)(sensitivity s)(macro m ((categoryset p)) (level l (s p)))(call m ((c)))(call m ((c)))",
        "",
    ),
    (
        "(category c)(sensitivity s)(macro m ((categoryset p)) (level l (s p)))(call m (all))(level l (s all))(call m ((all)))",
        "36 0 61 . l\n36 0 91 . l\n",
    ),
    (
        "(sensitivity s)(macro m ((level p)) (levelrange g (p p)))(macro k ((level q)) (call m (q)))(call k ((s)))(call m ((s)))(levelrange g ((s) (s)))",
        "",
    ),
    // 35: all, and a list, where only a category may stand
    (
        "(category c)(sensitivity s)(macro m ((categoryset p)) (level l (s (range p c))))(call m (all))(call m (c))",
        "35 0 86 . m\n",
    ),
    (
        "(category c)(sensitivity s)(macro m ((categoryset p)) (level l (s (range c p))))(macro k ((categoryset q)) (call m (q)))(call k ((c)))",
        "35 0 113 . m\n",
    ),
    (
        "(category c)(sensitivity s)(macro m ((categoryset p)(name n)) (level l (s (not (p c)))))(call m ((c (not c)) x))",
        "",
    ),
    // 35: an argument of another form
    (
        "(sensitivity s)(macro m ((levelrange p)(level q)) (type t))(call m ((s) (s)))",
        "35 0 65 . m\n",
    ),
    // 41: the words of lists
    (
        "(category c)(sensitivity s)(macro m ((categoryset p)) (level l (s p)))(call m ((c nobody)))",
        "41 0 82 . nobody\n",
    ),
    (
        "(sensitivity s)(user u)(macro m ((level l)(levelrange g)) (userlevel u l)(userrange u (l l))(userrange u g))(call m ((s) ((s) k)))",
        "41 0 126 . k\n",
    ),
    (
        "(sensitivity s)(user u)(macro k ((levelrange r)) (userrange u r))(macro m ((levelrange g)) (call k (g)))(call m (((s) (nobody))))",
        "41 0 119 . nobody\n",
    ),
    // 41: words of constraints and of their class permissions
    (
        "(type a)(class f (p))(constrain (f (p)) (and (eq t1 (a nobody)) (eq u1 u2)))(mlsconstrain (f (q)) (dom l1 l2))",
        "41 0 55 . nobody\n41 0 94 . q\n",
    ),
    (
        "(class f (p))(macro m ((classpermission x)) (constrain x (eq u1 u2)))(call m ((f (nobody))))(call m ((f (p))))",
        "41 0 82 . nobody\n",
    ),
    // 41: an alias is no category, and a level no level range
    (
        "(category c)(categoryalias k)(categoryaliasactual c c)(categoryaliasactual k c)(sensitivityorder (c))(user u)(level l (c))(userrange u l)",
        "41 0 50 . c\n41 0 98 . c\n41 0 119 . c\n41 0 135 . l\n",
    ),
    (
        "(role r)(roleallow r nobody)(type a)(class f (p))(rangetransition a a f ((nobody) x))",
        "41 0 21 . nobody\n41 0 74 . nobody\n41 0 82 . x\n",
    ),
    // optionals are not in force here
    ("(optional o (userrange nobody x)(level l (y)))", ""),
];

/// Adds the faults of all that is placed.
fn show_instances(alloc: Global, instances: &Instances, out: &mut String) -> bool {
    match declare(alloc, instances) {
        Ok(_) => ByNames(Judged(&[])).answer(alloc, instances, out),
        Err(Failure::Faults(faults)) => show_faults(alloc, &faults, out),
        Err(Failure::NoMemory) => false,
    }
}

fn show_spaces(alloc: Global, spaces: &Spaces, out: &mut String) -> bool {
    match expand(alloc, spaces) {
        Ok(instances) => show_instances(alloc, &instances, out),
        Err(Failure::Faults(faults)) => show_faults(alloc, &faults, out),
        Err(Failure::NoMemory) => false,
    }
}

fn show_program(alloc: Global, program: &Program, out: &mut String) -> bool {
    match inherit(alloc, program) {
        Ok(spaces) => show_spaces(alloc, &spaces, out),
        Err(_) => false,
    }
}

fn show_modules(alloc: Global, modules: &ModuleSet, out: &mut String) -> bool {
    match written(alloc, modules) {
        Ok(program) => show_program(alloc, &program, out),
        Err(_) => false,
    }
}

/// Whether these are the faults of a text.
fn has_faults(alloc: Global, text: &str, want: &str) -> bool {
    let Ok(modules) = set_of(alloc, &[text]) else {
        return false;
    };
    let mut out = String::new(alloc);
    show_modules(alloc, &modules, &mut out) && out.as_str() == want
}

#[test]
fn statements_of_levels_are_placed_and_named(rt: HostRuntime) {
    for &(text, want) in ROWS {
        assert!(rt; has_faults(rt.alloc(), text, want), "{text}");
    }
}
