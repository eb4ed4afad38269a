//! Choices of optionals, right and wrong: what `check` says of them, and that what is chosen is right.

ghost use Rattle.cil_macros.specs.Items.{items_in, namespaces_in};
ghost use Rattle.cil_names.specs.Entries.{AreEntries};
ghost use Rattle.cil_names.specs.Unresolved.{ArePermissions};

use crate::answers::{ByNames, FIRST, Named, NamedQuestion, is_answer, show_counts, show_faults};
use crate::optional_rows::{CHOICES, Row, Why};
use cil_names::OptSet;
use cil_optionals::guesses::guess;
use cil_optionals::laws::greatest_in_rounds;
use cil_optionals::{Chosen, Reason, base_faults, check, greatest_counted};
use cil_syntax::Failure;
use std::alloc::Global;
use std::test::Fail;

/// A choice, and whether it is right.
#[derive(Drop)]
struct Checked(&'static [usize], &'static [Why], bool);

fn reason(optional: u32, why: Option<(u32, u32)>) -> Reason {
    match why {
        Some((instance, word)) => Reason::Missing {
            optional,
            instance,
            word,
        },
        None => Reason::ParentOut { optional },
    }
}

pub(crate) fn flags(alloc: Global, enabled: &[usize]) -> Option<OptSet> {
    let mut flags = vec![in alloc; false; 32].ok()?;
    for &number in enabled {
        if number < flags.len() {
            flags[number] = true;
        }
    }
    Some(OptSet::of(flags))
}

fn choice(alloc: Global, enabled: &[usize], whys: &[Why]) -> Option<Chosen> {
    let mut reasons = Vec::new(alloc);
    for &(optional, why) in whys {
        reasons.push(reason(optional, why)).ok()?;
    }
    let enabled = flags(alloc, enabled)?;
    Some(Chosen { enabled, reasons })
}

/// Whether `check` says this of a choice.
fn is_checked(alloc: Global, all: &Named, chosen: &Chosen, want: bool) -> bool
    requires entries { AreEntries (namespaces_in all.now.instances.now) (items_in all.now.instances.now) all.now.names.now }
    requires permissions { ArePermissions (namespaces_in all.now.instances.now) all.now.names.now (items_in all.now.instances.now) all.now.permissions.now }
{
    match check(alloc, all.instances, all.names, all.permissions, chosen) {
        Ok(is_right) => is_right == want,
        Err(_) => false,
    }
}

impl NamedQuestion for Checked {
    fn answer(&self, alloc: Global, all: &Named, _out: &mut String) -> bool {
        match choice(alloc, self.0, self.1) {
            Some(chosen) => is_checked(alloc, all, &chosen, self.2),
            None => false,
        }
    }
}

/// Whether `check` says of each choice for a module what it has to.
fn are_judged(alloc: Global, text: &str, choices: &'static [Row]) -> bool {
    for &(about, enabled, reasons) in choices {
        let question = ByNames(Checked(enabled, reasons, about == "right"));
        if !is_answer(alloc, &[FIRST, text], &question, "") {
            return false;
        }
    }
    true
}

#[test]
fn choices_of_optionals_are_checked(rt: HostRuntime) {
    for &(text, choices) in CHOICES {
        assert!(rt; are_judged(rt.alloc(), text, choices), "{text}");
    }
}

/// How many optionals what is chosen leaves out, and the look-ups it took. No answer where it is not right.
struct Picked;

impl NamedQuestion for Picked {
    fn answer(&self, alloc: Global, all: &Named, out: &mut String) -> bool {
        match greatest_counted(alloc, all.instances, all.names, all.permissions) {
            Ok(found) => {
                show_counts(out, found.removals, found.lookups)
                    && is_checked(alloc, all, &found.chosen, true)
            }
            Err(_) => false,
        }
    }
}

struct Guessed;

impl NamedQuestion for Guessed {
    fn answer(&self, alloc: Global, all: &Named, out: &mut String) -> bool {
        match guess(alloc, all.instances, all.names, all.permissions) {
            Ok(found) => {
                let removals = found.chosen.reasons.len();
                show_counts(out, removals as u64, found.lookups as u64)
                    && is_checked(alloc, all, &found.chosen, true)
            }
            Err(_) => false,
        }
    }
}

/// How many optionals are left out in rounds.
struct InRounds;

impl NamedQuestion for InRounds {
    fn answer(&self, alloc: Global, all: &Named, out: &mut String) -> bool {
        match greatest_in_rounds(alloc, all.instances, all.names, all.permissions) {
            Ok(chosen) => write!(out, "{}", chosen.reasons.len()).is_ok(),
            Err(_) => false,
        }
    }
}

/// Whether the choice and the guess are right, leave out so many optionals, as rounds do, and take so many look-ups.
fn is_chosen_so(alloc: Global, text: &str, want: &str) -> bool {
    let Some((removals, _)) = want.split_once(' ') else {
        return false;
    };
    is_answer(alloc, &[FIRST, text], &ByNames(Picked), want)
        && is_answer(alloc, &[FIRST, text], &ByNames(Guessed), want)
        && is_answer(alloc, &[FIRST, text], &ByNames(InRounds), removals)
}

/// Modules behind the first policy, and behind arrows how many optionals are left out, and how many look-ups that takes.
const PICKED: &[&str] = &[
    "(type z) => 0 0",
    "(optional A (allow a x (file (read))))(optional B (type x)(allow x nobody (file (read)))) => 2 3",
    "(optional A (type x)(allow x y (file (read))))(optional B (type y)(allow y x (file (read)))) => 0 0",
    "(optional A (roletype r nobody)(optional B (type z))) => 2 1",
    // In an optional that is in, one is out; another has what that declares: the type `y`, and the word `y`.
    "(optional A (type z)(optional B (type y)(roletype r nobody)))(optional C (roletype r z))(optional D (roletype r y)) => 2 2",
    // One name in three optionals, of which one is in: two types `x`, and no word, since the name is declared.
    "(optional o (type x)(roletype r nobody))(optional o (type x)(roletype r x))(optional o (type x)(roletype r none))(optional p (roletype r x)) => 2 2",
    // The same, and none is in: two types `x`, and a word.
    "(optional o (type x)(roletype r nobody))(optional o (type x)(roletype r none))(optional p (roletype r x)) => 3 3",
    "(type z)(optional o (type z)(roletype r nobody))(optional p (roletype r z)) => 1 1",
    "(optional o (type x)(roletype r nobody))(optional p (allow x x (file (read)))) => 2 3",
    "(optional o (role x)(roletype r nobody))(type x)(roletype r x) => 1 1",
    "(optional o (allow a b (dir (read))))(optional p (allow a b (file (write))))(optional q (call m (a))) => 3 0",
    "(macro m () (optional o (allow a x (file (open)))))(call m)(block n (type x)(roletype .r x)(call m)) => 1 0",
    // A template that is inherited twice, and a nearer name that is out: the types `k.x` and `n.x`, and a word for each.
    "(block t (blockabstract t)(optional o (type x)(roletype .r nobody))(optional p (roletype .r x)))(block k (blockinherit t))(block n (blockinherit t))(type x) => 2 4",
    // A nearer name that is out, behind which one stays: the type `b.x`, and the word, which goes on to name `x`.
    "(block b (optional o (type x)(roletype .r nobody))(optional p (roletype .r x)))(type x) => 1 2",
    // The same where the one behind it is out too: two types `x`, and the word for each.
    "(block b (optional o (type x)(roletype .r nobody))(optional p (roletype .r x)))(optional q (type x)(roletype r nobody)) => 3 4",
    // The same where the one behind it is in an optional that is in: the type `b.x`, and the word.
    "(block b (optional o (type x)(roletype .r nobody))(optional p (roletype .r x)))(optional q (type x)) => 1 2",
    "(optional o (type x)(roletype r y))(optional p (type y)(roletype r z))(optional q (type z)(roletype r x)(roletype r nobody)) => 3 6",
    "(optional o (type x)(optional p (roletype r nobody)(optional q (roletype r x)(optional s))))(optional t (roletype r x)) => 3 0",
];

#[test]
fn what_is_chosen_is_right(rt: HostRuntime) -> Result<(), Fail> {
    for row in PICKED {
        let (text, want) = row.split_once(" => ").ok_or("no row")?;
        assert!(rt; is_chosen_so(rt.alloc(), text, want), "{row}");
    }
    Ok(())
}

/// Adds 1,000 optionals, each of which declares a type and wants that of the next, the last one that of this number.
fn add_chain(text: &mut String, last: u32) -> bool {
    for at in 0..1000_u32 {
        let next = if at == 999 { last } else { at + 1 };
        if write!(text, "(optional o{at} (type x{at})(roletype r x{next}))").is_err() {
            return false;
        }
    }
    true
}

/// Whether as many of these are left out, and as many look-ups taken.
fn is_chain_chosen_so(alloc: Global, last: u32, want: &str) -> bool {
    let mut text = String::new(alloc);
    add_chain(&mut text, last) && is_chosen_so(alloc, text.as_str(), want)
}

#[test]
fn a_chain_takes_a_look_up_for_each_type_and_each_word(rt: HostRuntime) {
    // All are out: 1,000 types, and 999 words, since nothing declares the last.
    assert!(rt; is_chain_chosen_so(rt.alloc(), 1000, "1000 1999"));
    assert!(rt; is_chain_chosen_so(rt.alloc(), 0, "0 0"));
}

/// The faults of words outside all optionals, where these are in force.
#[derive(Drop)]
pub(crate) struct Judged(pub(crate) &'static [usize]);

impl NamedQuestion for Judged {
    fn answer(&self, alloc: Global, all: &Named, out: &mut String) -> bool {
        let Some(chosen) = choice(alloc, self.0, &[]) else {
            return false;
        };
        match base_faults(alloc, all.instances, all.names, all.permissions, &chosen) {
            Ok(()) => true,
            Err(Failure::Faults(faults)) => show_faults(alloc, &faults, out),
            Err(Failure::NoMemory) => false,
        }
    }
}

/// A module behind the first policy, in which `x` is declared in the optional 9 alone, and a word in it names nothing.
const OUTSIDE: &str = "(optional o (type x)(roletype r nobody))(roletype r x)(roletype r y)";

/// The optionals that are in force, and the faults.
const BASE: &[(&[usize], &str)] = &[
    (&[], "41 1 52 . x\n41 1 66 . y\n"),
    (&[9], "41 1 66 . y\n"),
    (&[10], "41 1 52 . x\n41 1 66 . y\n"),
];

#[test]
fn words_outside_optionals_are_judged_by_any_choice(rt: HostRuntime) {
    for &(enabled, want) in BASE {
        let is_so = is_answer(
            rt.alloc(),
            &[FIRST, OUTSIDE],
            &ByNames(Judged(enabled)),
            want,
        );
        assert!(rt; is_so, "{enabled:?}");
    }
}
