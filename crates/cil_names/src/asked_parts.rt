//! What a statement asks for, by the parts of what it says. No pass over parts calls itself, however deep lists nest.

ghost use Rattle.std.specs.Prelude.{◌≡◌, ◌≤◌, ◌<◌, ◌+◌, ◌^◌, ◌∷◌, ◌++◌, [], IfOk, IfSome, List, MatchOption, OnOk, drop, length, map, suc, take};
ghost use Rattle.std.specs.List.{flat_map};
ghost use Rattle.cil_syntax.specs.Terms.{Terms};
ghost use Rattle.cil_macros.specs.Items.{scoped_by};
ghost use Rattle.cil_syntax.specs.Scopes.{ScopedWord};
ghost use Rattle.cil_macros.specs.Listed.{Part as SaidPart, all_parts_of, part_there, parts_there, words_in_parts};
ghost use Rattle.cil_macros.specs.Placed.{Placed};
ghost use Rattle.cil_macros.specs.declared.listed.Part.TheVariants as kept;
ghost use Rattle.cil_names.specs.Asked.{wanted_by};
ghost use Rattle.cil_names.specs.AskedParts.{class_asked, mapping_asked, parts_asked, parts_inside, term_parts, two_parts};
ghost use Rattle.cil_names.specs.Resolves.{words_said};

use crate::asked::{Asked, push_asked, push_placed};
use crate::reading::is_mapping;
use cil_base::NoMemory;
use cil_macros::{Part, PlacedWord};
use cil_syntax::Keyword;
use std::alloc::Global;

/// What a statement of a keyword asks for that says these parts. It costs a step for each part, and two for those of class lists.
pub fn asked_in_parts<'a>(
    alloc: Global,
    keyword: Keyword,
    parts: &[Part<'a>],
) -> Result<Vec<Asked<'a>>, NoMemory>
    ensures { IfOk result (λ asked. (ps : List Placed) (ts : Terms ScopedWord) → parts_there ps parts.now ≡ all_parts_of ts → flat_map (wanted_by ps) asked.items ≡ words_said keyword ts) }
{
    let mut asked = Vec::new(alloc);
    ask_said(alloc, &mut asked, keyword, parts)?;
    Ok(asked)
}

/// Adds what a statement of a keyword asks for that says these parts.
fn ask_said<'a>(
    alloc: Global,
    asked: &mut Vec<Asked<'a>>,
    keyword: Keyword,
    parts: &[Part<'a>],
) -> Result<(), NoMemory>
    ensures { OnOk result ((ps : List Placed) (ts : Terms ScopedWord) → parts_there ps parts.now ≡ all_parts_of ts → flat_map (wanted_by ps) asked.new.items ≡ flat_map (wanted_by ps) asked.old.items ++ words_said keyword ts) }
{
    if is_mapping(keyword) {
        return ask_mapping(alloc, asked, parts);
    }
    ask_parts(alloc, asked, parts)
}

/// Adds what the parts of a classmapping ask for: its first two terms are read as a class list.
fn ask_mapping<'a>(
    alloc: Global,
    asked: &mut Vec<Asked<'a>>,
    parts: &[Part<'a>],
) -> Result<(), NoMemory>
    ensures { OnOk result ((ps : List Placed) → flat_map (wanted_by ps) asked.new.items ≡ flat_map (wanted_by ps) asked.old.items ++ mapping_asked (parts_there ps parts.now)) }
{
    let front = two_parts(parts);
    ask_class(alloc, asked, &parts[..front])?;
    ask_parts(alloc, asked, behind(parts, front))
}

/// Adds what some parts ask for.
fn ask_parts<'a>(
    alloc: Global,
    asked: &mut Vec<Asked<'a>>,
    parts: &[Part<'a>],
) -> Result<(), NoMemory>
    ensures { OnOk result ((ps : List Placed) → flat_map (wanted_by ps) asked.new.items ≡ flat_map (wanted_by ps) asked.old.items ++ parts_asked 0 (parts_there ps parts.now)) }
{
    let mut at = 0;
    while at < parts.len() {
        at = ask_part(alloc, asked, parts, at)?;
    }
    Ok(())
}

/// Adds what the part at a place asks for, with the whole list where a class list begins, and gives the place behind.
fn ask_part<'a>(
    alloc: Global,
    asked: &mut Vec<Asked<'a>>,
    parts: &[Part<'a>],
    at: usize,
) -> Result<usize, NoMemory>
    requires { at < length parts.now }
    ensures later { IfOk result (λ next. at < next) }
    ensures asked { IfOk result (λ next. (ps : List Placed) → flat_map (wanted_by ps) asked.new.items ++ parts_asked 0 (parts_there ps (drop next parts.now))
        ≡ flat_map (wanted_by ps) asked.old.items ++ parts_asked 0 (parts_there ps (drop at parts.now))) }
{
    match &parts[at] {
        Part::Word(word) => {
            push_asked(asked, Asked::Word(word.copied()))?;
            Ok(at + 1)
        }
        Part::Text(_, _) => Ok(at + 1),
        Part::Opens(_, op) => {
            if !op.is_class_list() {
                return Ok(at + 1);
            }
            let inside = ask_list(alloc, asked, behind(parts, at + 1))?;
            Ok(at + 1 + inside)
        }
        Part::Closes => Ok(at + 1),
    }
}

/// The parts behind the first so many.
fn behind<'t, 'a>(parts: &'t [Part<'a>], count: usize) -> &'t [Part<'a>]
    requires { count ≤ length parts.now }
    ensures { result.now ≡ drop count parts.now }
{
    &parts[count..]
}

/// Adds what the class list asks for in which some parts begin, and tells how many of them are in it.
fn ask_list<'a>(
    alloc: Global,
    asked: &mut Vec<Asked<'a>>,
    parts: &[Part<'a>],
) -> Result<usize, NoMemory>
    ensures within { IfOk result (λ inside. inside ≤ length parts.now) }
    ensures inside { IfOk result (λ inside. (ps : List Placed) → inside ≡ parts_inside 0 (parts_there ps parts.now)) }
    ensures asked { IfOk result (λ inside. (ps : List Placed) → flat_map (wanted_by ps) asked.new.items ≡ flat_map (wanted_by ps) asked.old.items ++ class_asked (parts_there ps (take inside parts.now))) }
{
    let inside = inside(parts);
    ask_class(alloc, asked, &parts[..inside])?;
    Ok(inside)
}

/// The first of some parts, and those behind it.
#[derive(Clone, Copy)]
struct Front<'t, 'a> {
    first: &'t Part<'a>,
    behind: &'t [Part<'a>],
}

fn front_of<'t, 'a>(parts: &'t [Part<'a>]) -> Option<Front<'t, 'a>>
    ensures { MatchOption result (parts.now ≡ []) (λ front. parts.now ≡ front.first.now ∷ front.behind.now) }
{
    match parts {
        [] => None,
        [first, behind @ ..] => Some(Front { first, behind }),
    }
}

/// Adds what a class list asks for: its class word, and then its permissions.
fn ask_class<'a>(
    alloc: Global,
    asked: &mut Vec<Asked<'a>>,
    parts: &[Part<'a>],
) -> Result<(), NoMemory>
    ensures { OnOk result ((ps : List Placed) → flat_map (wanted_by ps) asked.new.items ≡ flat_map (wanted_by ps) asked.old.items ++ class_asked (parts_there ps parts.now)) }
{
    let Some(front) = word_in_front(parts) else {
        return Ok(());
    };
    let permissions = words_among(alloc, front.behind)?;
    push_asked(asked, Asked::ClassList(front.word.copied(), permissions))
}

/// The word in front of some parts, and those behind it.
#[derive(Clone, Copy)]
struct WordFront<'t, 'a> {
    word: &'t PlacedWord<'a>,
    behind: &'t [Part<'a>],
}

fn word_in_front<'t, 'a>(parts: &'t [Part<'a>]) -> Option<WordFront<'t, 'a>>
    ensures { MatchOption result ((ps : List Placed) → class_asked (parts_there ps parts.now) ≡ []) (λ front. parts.now ≡ kept.Word front.word.now ∷ front.behind.now) }
{
    let front = front_of(parts)?;
    match front.first {
        Part::Word(word) => Some(WordFront {
            word,
            behind: front.behind,
        }),
        Part::Text(_, _) => None,
        Part::Opens(_, _) => None,
        Part::Closes => None,
    }
}

/// The words among some parts.
fn words_among<'a>(alloc: Global, parts: &[Part<'a>]) -> Result<Vec<PlacedWord<'a>>, NoMemory>
    ensures { IfOk result (λ words. (ps : List Placed) → map (scoped_by ps) words.items ≡ words_in_parts (parts_there ps parts.now)) }
{
    let mut words = Vec::new(alloc);
    for part in parts {
        push_word(&mut words, part)?;
    }
    Ok(words)
}

/// Adds a part, if it is a word.
fn push_word<'a>(words: &mut Vec<PlacedWord<'a>>, part: &Part<'a>) -> Result<(), NoMemory>
    ensures { OnOk result ((ps : List Placed) → map (scoped_by ps) words.new.items ≡ map (scoped_by ps) words.old.items ++ words_in_parts (parts_there ps (part.now ∷ []))) }
{
    match part {
        Part::Word(word) => push_placed(words, word.copied()),
        Part::Text(_, _) => Ok(()),
        Part::Opens(_, _) => Ok(()),
        Part::Closes => Ok(()),
    }
}

// ---- how many parts are in a list

/// How many parts are in the list in which some parts begin, with the sign that ends it.
fn inside(parts: &[Part]) -> usize
    ensures within { result ≤ length parts.now }
    ensures inside { (ps : List Placed) → result ≡ parts_inside 0 (parts_there ps parts.now) }
{
    let mut depth = 0;
    for at in 0..parts.len() {
        let Some(behind) = depth_behind(&parts[at], depth) else {
            return at + 1;
        };
        depth = behind;
    }
    parts.len()
}

/// How many lists inside have begun behind a part, where so many have in front of it; none where it ends the list itself.
fn depth_behind(part: &Part, depth: usize) -> Option<usize>
    requires { depth + 1 < 2 ^ 64 }
    ensures deeper { IfSome result (λ behind. behind ≤ depth + 1) }
    ensures inside { (ps : List Placed) (xs : List SaidPart) → MatchOption result (parts_inside depth (part_there ps part.now ∷ xs) ≡ 1)
        (λ behind. parts_inside depth (part_there ps part.now ∷ xs) ≡ suc (parts_inside behind xs)) }
{
    match part {
        Part::Word(_) => Some(depth),
        Part::Text(_, _) => Some(depth),
        Part::Opens(_, _) => Some(depth + 1),
        Part::Closes => before(depth),
    }
}

/// The number before; none before 0.
fn before(depth: usize) -> Option<usize>
    ensures { MatchOption result (depth ≡ 0) (λ before. depth ≡ suc before) }
{
    if depth == 0 { None } else { Some(depth - 1) }
}

/// How many parts the first term has.
fn term_parts(parts: &[Part]) -> usize
    ensures within { result ≤ length parts.now }
    ensures parts { (ps : List Placed) → result ≡ term_parts (parts_there ps parts.now) }
{
    let Some(front) = front_of(parts) else {
        return 0;
    };
    match front.first {
        Part::Word(_) => 1,
        Part::Text(_, _) => 1,
        Part::Opens(_, _) => inside(front.behind) + 1,
        Part::Closes => 1,
    }
}

/// How many parts the first two terms have.
fn two_parts(parts: &[Part]) -> usize
    ensures within { result ≤ length parts.now }
    ensures parts { (ps : List Placed) → result ≡ two_parts (parts_there ps parts.now) }
{
    let first = term_parts(parts);
    first + term_parts(behind(parts, first))
}
