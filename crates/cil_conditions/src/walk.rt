//! The tokens of a condition, by one walk over its terms and what their words mean. A word costs no look-up.

ghost use Rattle.std.specs.Prelude.{◌≡◌, ◌++◌, [], IfOk, MatchOption, OnOk, Some, length};
ghost use Rattle.cil_conditions.specs.declared.token.Token.{Token as AToken};
ghost use Rattle.cil_conditions.specs.Conditions.{op_of, turns};
ghost use Rattle.cil_conditions.specs.Spelled.{with_turn};
ghost use Rattle.cil_conditions.specs.Walk.{IsAdded, IsFormAdded, IsFormUnsaid, IsUnsaid, IsWordAdded, IsWordUnsaid};

use crate::token::Token;
use cil_base::{NoMemory, short};
use cil_known::{Known, Meaning, behind_first, meaning_at};
use cil_syntax::{Kind, Op, Term};

/// Adds the tokens of a term of a statement of this module, by meanings that begin with those of its words, and answers the meanings
/// behind these; none where a word names no boolean, or an operator is none of conditions. Error: out of memory.
#[cycle(terms)]
pub fn push_condition<'s>(
    out: &mut Vec<Token>,
    known: &Known,
    term: &Term,
    module: u64,
    words: &'s [Meaning],
) -> Result<Option<&'s [Meaning]>, NoMemory>
    ensures { IfOk result (λ r. MatchOption r (IsUnsaid known.now «module» term.now words.now) (λ rest. IsAdded known.now «module» term.now words.now rest.now out.old.items out.new.items)) }
{
    match term {
        Term::Leaf(_) => push_boolean(out, known, words),
        Term::Name(_, _) => Ok(None),
        Term::Form(op, _, parts) => push_form(out, known, *op, parts.as_slice(), module, words),
    }
}

/// Adds the tokens of an operator and its operands.
#[cycle(terms)]
fn push_form<'s>(
    out: &mut Vec<Token>,
    known: &Known,
    op: Op,
    parts: &[Term],
    module: u64,
    words: &'s [Meaning],
) -> Result<Option<&'s [Meaning]>, NoMemory>
    ensures { IfOk result (λ r. MatchOption r (IsFormUnsaid known.now «module» op parts.now words.now) (λ rest. IsFormAdded known.now «module» op parts.now words.now rest.now out.old.items out.new.items)) }
{
    if parts.len() == 1 {
        return push_one(out, known, op, parts, module, words);
    }
    if parts.len() == 2 {
        return push_two(out, known, op, parts, module, words);
    }
    Ok(None)
}

/// Adds the tokens of an operator and its one operand.
#[cycle(terms)]
fn push_one<'s>(
    out: &mut Vec<Token>,
    known: &Known,
    op: Op,
    parts: &[Term],
    module: u64,
    words: &'s [Meaning],
) -> Result<Option<&'s [Meaning]>, NoMemory>
    requires { length parts.now ≡ 1 }
    ensures { IfOk result (λ r. MatchOption r (IsFormUnsaid known.now «module» op parts.now words.now) (λ rest. IsFormAdded known.now «module» op parts.now words.now rest.now out.old.items out.new.items)) }
{
    let Some(turn) = turns(op) else {
        return Ok(None);
    };
    push_turn(out, turn)?;
    push_condition(out, known, &parts[0], module, words)
}

/// Adds the tokens of an operator and its two operands.
#[cycle(terms)]
fn push_two<'s>(
    out: &mut Vec<Token>,
    known: &Known,
    op: Op,
    parts: &[Term],
    module: u64,
    words: &'s [Meaning],
) -> Result<Option<&'s [Meaning]>, NoMemory>
    requires { length parts.now ≡ 2 }
    ensures { IfOk result (λ r. MatchOption r (IsFormUnsaid known.now «module» op parts.now words.now) (λ rest. IsFormAdded known.now «module» op parts.now words.now rest.now out.old.items out.new.items)) }
{
    let Some(operator) = operator_of(op) else {
        return Ok(None);
    };
    out.push(operator)?;
    let Some(rest) = push_condition(out, known, &parts[0], module, words)? else {
        return Ok(None);
    };
    push_condition(out, known, &parts[1], module, rest)
}

/// Adds a `not` in front of an operand that is turned.
fn push_turn(out: &mut Vec<Token>, turn: bool) -> Result<(), NoMemory>
    ensures { OnOk result (out.new.items ≡ out.old.items ++ with_turn turn []) }
{
    if turn {
        out.push(Token::Not)?;
    }
    Ok(())
}

/// Adds the boolean that a word means, by the first of some meanings.
fn push_boolean<'s>(
    out: &mut Vec<Token>,
    known: &Known,
    words: &'s [Meaning],
) -> Result<Option<&'s [Meaning]>, NoMemory>
    ensures { IfOk result (λ r. MatchOption r (IsWordUnsaid known.now words.now) (λ rest. IsWordAdded known.now words.now rest.now out.old.items out.new.items)) }
{
    let Some(number) = known.number(Kind::Boolean, meaning_at(words, 0)) else {
        return Ok(None);
    };
    let number = short(number)?;
    out.push(Token::Boolean(number))?;
    Ok(Some(behind_first(words)))
}

/// Whether an operator over one operand turns its value; none for any other operator.
fn turns(op: Op) -> Option<bool>
    ensures { result ≡ turns op }
{
    match op {
        Op::Group => Some(false),
        Op::Not => Some(true),
        _ => None,
    }
}

/// The token of an operator over two operands; none for any other operator.
fn operator_of(op: Op) -> Option<Token>
    ensures { MatchOption result ((t : AToken) → op_of t ≡ Some op → ⊥) (λ t. op_of t ≡ Some op) }
{
    match op {
        Op::And => Some(Token::And),
        Op::Or => Some(Token::Or),
        Op::Xor => Some(Token::Xor),
        Op::Equal => Some(Token::Equal),
        Op::Unequal => Some(Token::Unequal),
        _ => None,
    }
}
