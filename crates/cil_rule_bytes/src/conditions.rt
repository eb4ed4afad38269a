//! Conditions at the front of bytes, as tokens.

ghost use Rattle.std.specs.Prelude.{◌≡◌, ◌++◌, ◌∷◌, [], ◌^◌};
ghost use Rattle.cil_conditions.specs.Truth.{IsExpression};
ghost use Rattle.cil_format.specs.Fields.{small};
ghost use Rattle.cil_format.specs.Format.{as_type, both};
ghost use Rattle.cil_format.specs.Takes.{Takes};
ghost use Rattle.cil_rule_bytes.specs.Conditions.{boolean};
ghost use Rattle.cil_rule_bytes.specs.Layout.{boolean_of, branch, condition, tree};
ghost use Rattle.cil_rule_bytes.specs.Pushed.{Pushes, PushesJoined};

use cil_conditions::{Branch, Cond, Token};
use cil_format::{TableError, TableFault, small_at, u8_at};
use std::alloc::Global;

/// The levels of a condition, its booleans counted.
const LEVELS: u32 = 128;

/// A boolean.
fn push_boolean<'a>(
    tokens: &mut Vec<Token>,
    bytes: &'a [u8],
    booleans: usize,
) -> Result<&'a [u8], TableError>
    ensures { Pushes (as_type boolean boolean_of (small booleans)) bytes.now tokens.old.items tokens.new.items result }
{
    let (number, rest) = small_at(bytes, booleans)?;
    tokens.push(Token::Boolean(number as u32))?;
    Ok(rest)
}

/// Two conditions, one behind the other, and in front of them the operator that joins them.
#[cycle(conditions)]
fn push_joined<'a>(
    tokens: &mut Vec<Token>,
    operator: Token,
    bytes: &'a [u8],
    booleans: usize,
    depth: u32,
) -> Result<&'a [u8], TableError>
    ensures { PushesJoined operator (tree booleans depth) bytes.now tokens.old.items tokens.new.items result }
{
    tokens.push(operator)?;
    let rest = push_tree(tokens, bytes, booleans, depth)?;
    let rest = push_tree(tokens, rest, booleans, depth)?;
    Ok(rest)
}

/// A condition of so many levels at most. It calls itself for each level.
#[cycle(conditions)]
#[tactic(auto, unfolding(crate::specs::Layout::tree))]
fn push_tree<'a>(
    tokens: &mut Vec<Token>,
    bytes: &'a [u8],
    booleans: usize,
    depth: u32,
) -> Result<&'a [u8], TableError>
    ensures { Pushes (tree booleans depth) bytes.now tokens.old.items tokens.new.items result }
{
    if depth == 0 {
        return Err(TableError::Fault(TableFault::OutOfRange));
    }
    let (tag, rest) = u8_at(bytes)?;
    match tag {
        1 => push_boolean(tokens, rest, booleans),
        2 => {
            tokens.push(Token::Not)?;
            push_tree(tokens, rest, booleans, depth - 1)
        }
        3 => push_joined(tokens, Token::And, rest, booleans, depth - 1),
        4 => push_joined(tokens, Token::Or, rest, booleans, depth - 1),
        5 => push_joined(tokens, Token::Xor, rest, booleans, depth - 1),
        6 => push_joined(tokens, Token::Equal, rest, booleans, depth - 1),
        7 => push_joined(tokens, Token::Unequal, rest, booleans, depth - 1),
        _ => Err(TableError::Fault(TableFault::OutOfRange)),
    }
}

/// A condition of booleans below a limit.
fn condition_at(alloc: Global, bytes: &[u8], booleans: usize) -> Result<(Cond, &[u8]), TableError>
    ensures { Takes (λ x. (x.0, x.1.now)) result ((condition booleans).read bytes.now) }
{
    let mut tokens = Vec::new(alloc);
    let rest = push_tree(&mut tokens, bytes, booleans, LEVELS)?;
    Ok((Cond::of(tokens), rest))
}

/// The branch in which a rule counts, if it does not count always.
pub(crate) fn branch_at(
    alloc: Global,
    bytes: &[u8],
    booleans: usize,
) -> Result<(Option<Branch>, &[u8]), TableError>
    ensures { Takes (λ x. (x.0, x.1.now)) result ((branch booleans).read bytes.now) }
{
    let (tag, rest) = u8_at(bytes)?;
    match tag {
        0 => Ok((None, rest)),
        1 => {
            let (condition, rest) = condition_at(alloc, rest, booleans)?;
            let branch = Branch {
                condition,
                value: true,
            };
            Ok((Some(branch), rest))
        }
        2 => {
            let (condition, rest) = condition_at(alloc, rest, booleans)?;
            let branch = Branch {
                condition,
                value: false,
            };
            Ok((Some(branch), rest))
        }
        _ => Err(TableError::Fault(TableFault::OutOfRange)),
    }
}
