//! Conditions, and their values.

ghost use Rattle.std.specs.Prelude.{◌≡◌, ◌↔◌, ◌∷◌, ◌+◌, ◌^◌, ◌<◌, ◌≤◌, IfOk, IsTrue, drop, length};
ghost use Rattle.cil_conditions.specs.Bits.{is_on};
ghost use Rattle.cil_conditions.specs.Truth.{IsExpression, truth, truth_of, values, wanted_behind};

use crate::settings::Settings;
use crate::token::Token;
use cil_base::NoMemory;
use std::alloc::Global;
use std::marker::Model;

/// A condition: the tokens of one expression. Contracts see it as their list.
#[derive(Debug, Drop)]
pub struct Cond {
    tokens: Vec<Token>,
}

impl Model for Cond {
    ghost use Rattle.std.specs.Prelude.{List};
    ghost use Rattle.cil_conditions.specs.declared.token.Token.{Token};
    ghost use Rattle.cil_conditions.specs.Truth.{IsExpression};

    ghost Value = { List Token };

    ghost view = { λ a. a.tokens.items };

    ghost invariant = { λ a. IsExpression a.tokens.items };
}

impl Cond {
    /// The condition of these tokens, which spell one expression (`is_expression`).
    pub fn of(tokens: Vec<Token>) -> Cond
        requires { IsExpression tokens.items }
        ensures { result ≡ tokens.items }
    {
        Cond { tokens }
    }

    /// The tokens.
    pub fn as_slice(&self) -> &[Token]
        ensures tokens { result.now ≡ self.now }
        ensures expression { IsExpression self.now }
    {
        self.tokens.as_slice()
    }

    /// The value of the condition. It costs a step for each token and takes no memory; calls nest as deep as operators do, which is at most
    /// 127 in a policy.
    pub fn eval(&self, settings: &Settings) -> bool
        ensures { result ≡ truth (is_on settings.now) self.now }
    {
        value_of(self.as_slice(), settings)
    }

    /// The same condition once more. Errors: out of memory.
    pub fn try_clone(&self, alloc: Global) -> Result<Cond, NoMemory>
        ensures { IfOk result (λ same. same ≡ self.now) }
    {
        let tokens = Vec::from_slice(alloc, self.tokens.as_slice())?;
        Ok(Cond { tokens })
    }
}

/// Whether some tokens spell one expression: each operator has its operands, and nothing is left. It costs a step for each token.
pub fn is_expression(tokens: &[Token]) -> bool
    ensures { IsTrue result ↔ IsExpression tokens.now }
{
    let mut wanted = 1;
    for token in tokens {
        if wanted == 0 {
            return false;
        }
        wanted = wanted_behind(*token, wanted - 1);
    }
    wanted == 0
}

/// How many expressions are wanted behind a token: its operands, and so many more.
fn wanted_behind(token: Token, more: usize) -> usize
    requires { more + 2 < 2 ^ 64 }
    ensures value { result ≡ wanted_behind token more }
    ensures bound { result ≤ more + 2 }
{
    match token {
        Token::Boolean(_) => more,
        Token::Not => more + 1,
        _ => more + 2,
    }
}

/// The value of an expression, and the place behind it.
#[derive(Clone, Copy)]
struct Value {
    value: bool,
    end: usize,
}

/// The value of one expression.
fn value_of(tokens: &[Token], settings: &Settings) -> bool
    requires { IsExpression tokens.now }
    ensures { result ≡ truth (is_on settings.now) tokens.now }
{
    value_at(tokens, 0, settings).value
}

/// The value of the expression that begins at a place. It calls itself for each operand, as deep as operators nest.
fn value_at(tokens: &[Token], at: usize, settings: &Settings) -> Value
    requires { 0 < length (values (is_on settings.now) (drop at tokens.now)) }
    ensures value { values (is_on settings.now) (drop at tokens.now) ≡ result.value ∷ values (is_on settings.now) (drop result.end tokens.now) }
    ensures within { result.end ≤ length tokens.now }
    ensures onward { at < result.end }
{
    match tokens[at] {
        Token::Boolean(number) => Value {
            value: settings.is_on(number),
            end: at + 1,
        },
        Token::Not => {
            let inner = value_at(tokens, at + 1, settings);
            Value {
                value: !inner.value,
                end: inner.end,
            }
        }
        operator => {
            let first = value_at(tokens, at + 1, settings);
            let second = value_at(tokens, first.end, settings);
            Value {
                value: joined(operator, first.value, second.value),
                end: second.end,
            }
        }
    }
}

/// The value of an operator over two operands.
fn joined(operator: Token, first: bool, second: bool) -> bool
    ensures { result ≡ truth_of operator first second }
{
    match operator {
        Token::And => first && second,
        Token::Or => first || second,
        Token::Equal => first == second,
        _ => first != second,
    }
}
