//! The steps of what the term of a constraint asks for, by one walk over it and what its words mean. A word costs no look-up.

ghost use Rattle.std.specs.Prelude.{◌≡◌, ◌↔◌, ℕ, IfOk, IsTrue, MatchOption, OnOk, false, true};
ghost use Rattle.std.specs.Option.{is_some, option_map};
ghost use Rattle.cil_syntax.specs.declared.term.Word.{Word as AWord};
ghost use Rattle.cil_syntax.specs.Said.{said_of};
ghost use Rattle.cil_syntax.specs.Scopes.{ScopedWord};
ghost use Rattle.cil_classes.specs.known.Known.{BeginWith};
ghost use Rattle.cil_classes.specs.names.Unresolved.{term_with};
ghost use Rattle.cil_constraints.specs.declared.push.Standing.{Standing as AStanding};
ghost use Rattle.cil_constraints.specs.Expressions.{Compared};
ghost use Rattle.cil_constraints.specs.Joins.{takes_one};
ghost use Rattle.cil_constraints.specs.Saying.{equality_of, levels_compared, listed, variable_in, variables_compared};
ghost use Rattle.cil_constraints.specs.Pushed.{IsAdded, IsUnsaid, sets_in};
ghost use Rattle.cil_constraints.specs.Walk.{IsFormAdded, IsFormUnsaid, IsInsidePut, IsJoinedAdded, IsJoinedUnsaid, IsPutIf, IsTestAdded, IsTestUnsaid, operand_asked, words_there};

use crate::joins::{Joins, joins_of, push_head, takes_one};
use crate::step::{Equality, Part, Relation, Side, Step};
use crate::variable::{Variable, equality_of, is_union, pair_of, relation_of, variable_of};
use crate::words::set_of;
use cil_base::NoMemory;
use cil_classes::{Meaning, behind};
use cil_sets::Numbers;
use cil_syntax::{Op, Term};
use std::alloc::Global;

/// For each declared name the numbers of the users, roles and types for which words stand that mean it.
#[derive(Clone, Copy)]
pub struct Standing<'u, 'r, 't> {
    /// The users.
    pub users: &'u [Numbers],
    /// The roles.
    pub roles: &'r [Numbers],
    /// The types.
    pub types: &'t [Numbers],
}

/// Adds the steps of what a term of a statement of this module asks for, by meanings that begin with those of its words, and answers the
/// meanings behind these; none where it asks for nothing. It calls itself for each operand. Error: out of memory.
#[cycle(terms)]
pub fn push_said<'w>(
    alloc: Global,
    steps: &mut Vec<Step>,
    sets: &Standing,
    term: &Term,
    module: u64,
    words: &'w [Meaning],
) -> Result<Option<&'w [Meaning]>, NoMemory>
    ensures { IfOk result (λ r. MatchOption r (IsUnsaid «module» term.now) (λ rest. IsAdded sets.now «module» term.now words.now rest.now steps.old.items steps.new.items)) }
{
    match term {
        Term::Leaf(_) => Ok(None),
        Term::Name(_, _) => Ok(None),
        Term::Form(op, _, parts) => push_form(
            alloc,
            steps,
            sets,
            *op,
            parts.as_slice(),
            module,
            words,
        ),
    }
}

/// Adds the steps of an operator and its operands.
#[cycle(terms)]
fn push_form<'w>(
    alloc: Global,
    steps: &mut Vec<Step>,
    sets: &Standing,
    op: Op,
    parts: &[Term],
    module: u64,
    words: &'w [Meaning],
) -> Result<Option<&'w [Meaning]>, NoMemory>
    ensures { IfOk result (λ r. MatchOption r (IsFormUnsaid «module» op parts.now) (λ rest. IsFormAdded sets.now «module» op parts.now words.now rest.now steps.old.items steps.new.items)) }
{
    match joins_of(op) {
        Some(joins) => push_joined(alloc, steps, sets, joins, parts, module, words),
        None => push_test(alloc, steps, sets, op, parts, module, words),
    }
}

/// Adds the steps of operands that are joined.
#[cycle(terms)]
fn push_joined<'w>(
    alloc: Global,
    steps: &mut Vec<Step>,
    sets: &Standing,
    joins: Joins,
    parts: &[Term],
    module: u64,
    words: &'w [Meaning],
) -> Result<Option<&'w [Meaning]>, NoMemory>
    ensures { IfOk result (λ r. MatchOption r (IsJoinedUnsaid «module» joins parts.now) (λ rest. IsJoinedAdded sets.now «module» joins parts.now words.now rest.now steps.old.items steps.new.items)) }
{
    if takes_one(joins) {
        push_one(alloc, steps, sets, joins, parts, module, words)
    } else {
        push_two(alloc, steps, sets, joins, parts, module, words)
    }
}

/// Adds the steps of one operand.
#[cycle(terms)]
fn push_one<'w>(
    alloc: Global,
    steps: &mut Vec<Step>,
    sets: &Standing,
    joins: Joins,
    parts: &[Term],
    module: u64,
    words: &'w [Meaning],
) -> Result<Option<&'w [Meaning]>, NoMemory>
    requires { takes_one joins ≡ true }
    ensures { IfOk result (λ r. MatchOption r (IsJoinedUnsaid «module» joins parts.now) (λ rest. IsJoinedAdded sets.now «module» joins parts.now words.now rest.now steps.old.items steps.new.items)) }
{
    if parts.len() != 1 {
        return Ok(None);
    }
    push_head(steps, joins)?;
    push_said(alloc, steps, sets, &parts[0], module, words)
}

/// Adds the steps of two operands.
#[cycle(terms)]
fn push_two<'w>(
    alloc: Global,
    steps: &mut Vec<Step>,
    sets: &Standing,
    joins: Joins,
    parts: &[Term],
    module: u64,
    words: &'w [Meaning],
) -> Result<Option<&'w [Meaning]>, NoMemory>
    requires { takes_one joins ≡ false }
    ensures { IfOk result (λ r. MatchOption r (IsJoinedUnsaid «module» joins parts.now) (λ rest. IsJoinedAdded sets.now «module» joins parts.now words.now rest.now steps.old.items steps.new.items)) }
{
    if parts.len() != 2 {
        return Ok(None);
    }
    push_head(steps, joins)?;
    let Some(rest) = push_said(alloc, steps, sets, &parts[0], module, words)? else {
        return Ok(None);
    };
    push_said(alloc, steps, sets, &parts[1], module, rest)
}

/// Adds the step of a comparison.
fn push_test<'w>(
    alloc: Global,
    steps: &mut Vec<Step>,
    sets: &Standing,
    op: Op,
    parts: &[Term],
    module: u64,
    words: &'w [Meaning],
) -> Result<Option<&'w [Meaning]>, NoMemory>
    ensures { IfOk result (λ r. MatchOption r (IsTestUnsaid «module» op parts.now) (λ rest. IsTestAdded sets.now «module» op parts.now words.now rest.now steps.old.items steps.new.items)) }
{
    if parts.len() != 2 {
        return Ok(None);
    }
    let Some(relation) = relation_of(op) else {
        return Ok(None);
    };
    let first = &parts[0];
    let operand = &parts[1];
    let Some(variable) = variable_in(first) else {
        return Ok(None);
    };
    let of_operand = behind(words, first, module);
    let is = push_operand(
        alloc, steps, sets, relation, variable, operand, module, of_operand,
    )?;
    if !is {
        return Ok(None);
    }
    Ok(Some(behind(of_operand, operand, module)))
}

/// The variable that a term is.
fn variable_in(term: &Term) -> Option<Variable>
    ensures { (f : AWord → ScopedWord) (m : ℕ) → result ≡ variable_in (term_with f m term.now) }
{
    match term {
        Term::Leaf(_) => None,
        Term::Name(_, _) => None,
        Term::Form(op, _, _) => variable_of(*op),
    }
}

/// Whether a term is a word, or a list of words.
fn is_listed(term: &Term) -> bool
    ensures { (f : AWord → ScopedWord) (m : ℕ) → result ≡ is_some (listed (term_with f m term.now)) }
{
    match term {
        Term::Leaf(_) => true,
        Term::Name(_, _) => false,
        Term::Form(op, _, _) => is_union(*op),
    }
}

/// Adds the step that compares a variable with an operand, and answers whether there is one.
fn push_operand(
    alloc: Global,
    steps: &mut Vec<Step>,
    sets: &Standing,
    relation: Relation,
    variable: Variable,
    operand: &Term,
    module: u64,
    words: &[Meaning],
) -> Result<bool, NoMemory>
    ensures { IfOk result (λ is. IsPutIf is sets.now (λ k f. BeginWith k f (said_of «module» operand.now) words.now) (operand_asked relation variable «module» operand.now) steps.old.items steps.new.items) }
{
    if is_listed(operand) {
        push_words(
            alloc, steps, sets, relation, variable, operand, module, words,
        )
    } else {
        push_variables(steps, relation, variable, variable_in(operand))
    }
}

/// Adds the step that compares a variable with what words stand for.
fn push_words(
    alloc: Global,
    steps: &mut Vec<Step>,
    sets: &Standing,
    relation: Relation,
    variable: Variable,
    operand: &Term,
    module: u64,
    words: &[Meaning],
) -> Result<bool, NoMemory>
    requires { (f : AWord → ScopedWord) → is_some (listed (term_with f «module» operand.now)) ≡ true }
    ensures { IfOk result (λ is. IsPutIf is sets.now (λ k f. BeginWith k f (said_of «module» operand.now) words.now) (λ f. words_there relation variable (listed (term_with f «module» operand.now))) steps.old.items steps.new.items) }
{
    match variable {
        Variable::PartOf(part, side) => {
            let Some(equality) = equality_of(relation) else {
                return Ok(false);
            };
            push_part(
                alloc, steps, sets, part, side, equality, operand, module, words,
            )?;
            Ok(true)
        }
        Variable::LowOf(_) => Ok(false),
        Variable::HighOf(_) => Ok(false),
    }
}

/// Adds the step that compares a part of a context with what words of its kind stand for.
fn push_part(
    alloc: Global,
    steps: &mut Vec<Step>,
    sets: &Standing,
    part: Part,
    side: Side,
    equality: Equality,
    operand: &Term,
    module: u64,
    words: &[Meaning],
) -> Result<(), NoMemory>
    ensures { OnOk result (IsInsidePut (sets_in sets.now part) part side equality «module» operand.now words.now steps.old.items steps.new.items) }
{
    match part {
        Part::User => push_inside(
            alloc, steps, sets.users, part, side, equality, operand, module, words,
        ),
        Part::Role => push_inside(
            alloc, steps, sets.roles, part, side, equality, operand, module, words,
        ),
        Part::Kind => push_inside(
            alloc, steps, sets.types, part, side, equality, operand, module, words,
        ),
    }
}

/// Adds the step that compares a part of a context with what words stand for, by their sets.
fn push_inside(
    alloc: Global,
    steps: &mut Vec<Step>,
    sets: &[Numbers],
    part: Part,
    side: Side,
    equality: Equality,
    operand: &Term,
    module: u64,
    words: &[Meaning],
) -> Result<(), NoMemory>
    ensures { OnOk result (IsInsidePut sets.now part side equality «module» operand.now words.now steps.old.items steps.new.items) }
{
    let set = set_of(alloc, sets, operand, module, words)?;
    steps.push(Step::Inside(part, side, equality, set))?;
    Ok(())
}

/// Adds the step that compares two variables.
fn push_variables(
    steps: &mut Vec<Step>,
    relation: Relation,
    variable: Variable,
    other: Option<Variable>,
) -> Result<bool, NoMemory>
    ensures { IfOk result (λ is. (sets : AStanding) → IsPutIf is sets (λ k f. Unit {0}) (λ f. variables_compared relation variable other) steps.old.items steps.new.items) }
{
    let Some(other) = other else {
        return Ok(false);
    };
    match variable {
        Variable::PartOf(part, _) => push_parts(steps, relation, part),
        Variable::LowOf(_) => push_levels(steps, relation, variable, other),
        Variable::HighOf(_) => push_levels(steps, relation, variable, other),
    }
}

/// Adds the step that compares a part of the source with that of the target.
fn push_parts(steps: &mut Vec<Step>, relation: Relation, part: Part) -> Result<bool, NoMemory>
    ensures { IfOk result (λ is. (sets : AStanding) → IsPutIf is sets (λ k f. Unit {0}) (λ f. option_map (Compared part) (equality_of relation)) steps.old.items steps.new.items) }
{
    let Some(equality) = equality_of(relation) else {
        return Ok(false);
    };
    steps.push(Step::Compared(part, equality))?;
    Ok(true)
}

/// Adds the step that compares two levels.
fn push_levels(
    steps: &mut Vec<Step>,
    relation: Relation,
    first: Variable,
    second: Variable,
) -> Result<bool, NoMemory>
    ensures { IfOk result (λ is. (sets : AStanding) → IsPutIf is sets (λ k f. Unit {0}) (λ f. levels_compared relation first second) steps.old.items steps.new.items) }
{
    let Some(pair) = pair_of(first, second) else {
        return Ok(false);
    };
    steps.push(Step::Ranked(pair, relation))?;
    Ok(true)
}
