//! The categories of a set expression, by what its words stand for.

ghost use Rattle.std.specs.Prelude.{◌≡◌, ◌++◌, ◌<◌, ◌≤◌, ℕ, All, List, Option, get_or, ltb, map};
ghost use Rattle.cil_syntax.specs.declared.term.Word.{Word as AWord};
ghost use Rattle.cil_syntax.specs.Expressions.{way_of};
ghost use Rattle.cil_syntax.specs.Said.{all_said, said_of};
ghost use Rattle.cil_attrs.specs.macros.Item.{all_words_in, words_in};
ghost use Rattle.std.specs.Bool.{MatchBool};
ghost use Rattle.cil_mls.specs.Bits.{in_words, is_between};
ghost use Rattle.cil_mls.specs.Values.{AreJoined, AreNotTwo, AreTwoWords, IsFew, IsFormed, IsLeaf, IsNoLeaf, IsValue, end_of, held_between, in_span, is_held, join_of, meant_held, start_of, way_as};

use crate::categories::{Categories, MOST_CATEGORIES};
use cil_attrs::{Meaning, behind_first, meaning_at};
use cil_syntax::{Op, Term};

/// What a word that names an entry stands for.
#[derive(Clone, Copy)]
pub enum Held {
    /// Nothing: the entry is of another name space, or is not declared.
    Nothing,
    /// A category, by its place in the order.
    Category(usize),
    /// A set of categories.
    Set(Categories),
}

/// What expressions are evaluated by.
#[derive(Clone, Copy)]
pub struct Evaluator<'s> {
    /// How many categories there are.
    pub count: usize,
    /// What each entry holds, by its number.
    pub held: &'s [Held],
}

/// The value of an expression, and the meanings behind those of its words.
#[derive(Clone, Copy)]
pub struct Valued<'w> {
    /// The value.
    pub value: Categories,
    /// The meanings behind.
    pub rest: &'w [Meaning],
}

/// How some sets are joined.
#[derive(Clone, Copy)]
enum Join {
    /// What one of them has.
    Union,
    /// What each has.
    Common,
    /// What an odd number of them has.
    Apart,
}

/// How a form makes its set.
#[derive(Clone, Copy)]
enum How {
    /// All categories.
    Everything,
    /// The categories that no part has.
    Others,
    /// The parts joined.
    Joined(Join),
    /// The categories from one to another.
    Between,
}

fn how_of(op: Op) -> How
    ensures { way_as result ≡ way_of op }
{
    match op {
        Op::All => How::Everything,
        Op::Not => How::Others,
        Op::And => How::Joined(Join::Common),
        Op::Xor => How::Joined(Join::Apart),
        Op::Range => How::Between,
        _ => How::Joined(Join::Union),
    }
}

impl Join {
    /// What sets are joined to.
    fn start(self) -> Categories
        ensures { (c : ℕ) → c < 1024 → in_words result.words c ≡ start_of self }
    {
        match self {
            Join::Union => Categories::none(),
            Join::Common => Categories::first(MOST_CATEGORIES),
            Join::Apart => Categories::none(),
        }
    }

    /// What two sets make.
    fn of(self, a: &Categories, b: &Categories) -> Categories
        ensures { (c : ℕ) → c < 1024 → in_words result.words c ≡ join_of self (in_words a.now.words c) (in_words b.now.words c) }
    {
        match self {
            Join::Union => a.union(b),
            Join::Common => a.common(b),
            Join::Apart => a.apart(b),
        }
    }

    /// What is left of the sets joined, where there are so many categories.
    fn end(self, all: &Categories, count: usize) -> Categories
        requires { count ≤ 1024 }
        ensures { (c : ℕ) → c < 1024 → in_words result.words c ≡ end_of self (ltb c count) (in_words all.now.words c) }
    {
        match self {
            Join::Union => *all,
            Join::Common => all.common(&Categories::first(count)),
            Join::Apart => *all,
        }
    }
}

/// The value of an expression, whose words mean what the row begins with. It costs a few steps for each term and each word of a set,
/// and takes no memory.
#[cycle(terms)]
pub fn value<'w>(by: &Evaluator, term: &Term, words: &'w [Meaning]) -> Valued<'w>
    requires count { by.now.count ≤ 1024 }
    requires few { All IsFew by.now.held.now }
    ensures { (m : ℕ) (g : AWord → Option ℕ) (more : List (Option ℕ)) → words.now ≡ map g (words_in (said_of m term.now)) ++ more
        → IsValue by.now.held.now by.now.count g more (said_of m term.now) result }
{
    match term {
        Term::Leaf(_) => Valued {
            value: value_of(&meant_held(by.held, meaning_at(words, 0))),
            rest: behind_first(words),
        },
        Term::Name(_, _) => Valued {
            value: Categories::none(),
            rest: words,
        },
        Term::Form(op, _, parts) => formed(by, how_of(*op), parts.as_slice(), words),
    }
}

/// The value of a form that makes its set in this way.
#[cycle(terms)]
fn formed<'w>(by: &Evaluator, how: How, parts: &[Term], words: &'w [Meaning]) -> Valued<'w>
    requires count { by.now.count ≤ 1024 }
    requires few { All IsFew by.now.held.now }
    ensures { (m : ℕ) (g : AWord → Option ℕ) (more : List (Option ℕ)) → words.now ≡ map g (all_words_in (all_said m parts.now)) ++ more
        → IsFormed by.now.held.now by.now.count g more how (all_said m parts.now) result }
{
    match how {
        How::Everything => {
            let rest = joined(by, Join::Union, parts, words).rest;
            Valued {
                value: Categories::first(by.count),
                rest,
            }
        }
        How::Others => {
            let some = joined(by, Join::Union, parts, words);
            Valued {
                value: some.value.others(by.count),
                rest: some.rest,
            }
        }
        How::Joined(join) => joined(by, join, parts, words),
        How::Between => {
            let rest = joined(by, Join::Union, parts, words).rest;
            Valued {
                value: span(by, parts, words),
                rest,
            }
        }
    }
}

/// What the values of some expressions are joined to.
#[cycle(terms)]
fn joined<'w>(by: &Evaluator, join: Join, parts: &[Term], words: &'w [Meaning]) -> Valued<'w>
    requires count { by.now.count ≤ 1024 }
    requires few { All IsFew by.now.held.now }
    ensures { (m : ℕ) (g : AWord → Option ℕ) (more : List (Option ℕ)) → words.now ≡ map g (all_words_in (all_said m parts.now)) ++ more
        → AreJoined by.now.held.now by.now.count g more join (all_said m parts.now) result }
{
    let mut all = join.start();
    let mut rest = words;
    for part in parts {
        let one = value(by, part, rest);
        all = join.of(&all, &one.value);
        rest = one.rest;
    }
    Valued {
        value: join.end(&all, by.count),
        rest,
    }
}

/// What a word of this meaning stands for.
fn meant_held(held: &[Held], meaning: Option<usize>) -> Held
    ensures { result ≡ meant_held held.now meaning }
{
    let Some(entry) = meaning else {
        return Held::Nothing;
    };
    match held.get(entry) {
        Some(held) => *held,
        None => Held::Nothing,
    }
}

/// The categories that a name stands for.
fn value_of(held: &Held) -> Categories
    requires { IsFew held.now }
    ensures { (c : ℕ) → c < 1024 → in_words result.words c ≡ is_held c held.now }
{
    match held {
        Held::Nothing => Categories::none(),
        Held::Category(place) => between_places(*place, *place),
        Held::Set(set) => *set,
    }
}

/// The categories from what one of two words names to what the other names.
fn span(by: &Evaluator, parts: &[Term], words: &[Meaning]) -> Categories
    requires few { All IsFew by.now.held.now }
    ensures { (m : ℕ) (g : AWord → Option ℕ) (more : List (Option ℕ)) → words.now ≡ map g (all_words_in (all_said m parts.now)) ++ more
        → (c : ℕ) → c < 1024 → in_words result.words c ≡ in_span by.now.held.now g c (all_said m parts.now) }
{
    if !are_two_words(parts) {
        return Categories::none();
    }
    let low = meant_held(by.held, meaning_at(words, 0));
    let high = meant_held(by.held, meaning_at(words, 1));
    between_held(&low, &high)
}

/// The categories from one to another, where two names stand for one each.
fn between_held(low: &Held, high: &Held) -> Categories
    requires { IsFew high.now }
    ensures { (c : ℕ) → c < 1024 → in_words result.words c ≡ held_between low.now high.now c }
{
    let Held::Category(first) = low else {
        return Categories::none();
    };
    let Held::Category(last) = high else {
        return Categories::none();
    };
    between_places(*first, *last)
}

/// The categories from one place to another.
fn between_places(first: usize, last: usize) -> Categories
    requires { last < 1024 }
    ensures { (c : ℕ) → c < 1024 → in_words result.words c ≡ is_between first last c }
{
    let mut all = Categories::none();
    all.add_between(first, last);
    all
}

/// Whether the terms are two words.
fn are_two_words(parts: &[Term]) -> bool
    ensures { MatchBool result (AreTwoWords parts.now) (AreNotTwo parts.now) }
{
    if parts.len() != 2 {
        return false;
    }
    if !is_leaf(&parts[0]) {
        return false;
    }
    if !is_leaf(&parts[1]) {
        return false;
    }
    true
}

/// Whether a term is a word.
fn is_leaf(term: &Term) -> bool
    ensures { MatchBool result (IsLeaf term.now) (IsNoLeaf term.now) }
{
    match term {
        Term::Leaf(_) => true,
        Term::Name(_, _) => false,
        Term::Form(_, _, _) => false,
    }
}
