//! The parts of conditions.

ghost use Rattle.std.specs.Prelude.{◌≡◌, refl};
ghost use Rattle.std.specs.Cmp.{eq_by_cmp_equiv, partial_equiv_from_equiv, partial_order_from_total};
ghost use Rattle.std.specs.Ordering.{as_partial_cmp, eq_by_cmp};
ghost use Rattle.cil_conditions.specs.Order.{number_of, tag_of, token_cmp, token_total};

use std::cmp::Ordering;

/// A part of a condition: a boolean by its number, or an operator, which stands in front of its operands. Tokens are compared by their
/// tags, and booleans then by their numbers.
#[derive(Clone, Copy, Debug)]
pub enum Token {
    /// The boolean of this number.
    Boolean(u32),
    /// The operand that follows is false.
    Not,
    /// Both operands that follow are true.
    And,
    /// One of them is, or both.
    Or,
    /// Just one of them is.
    Xor,
    /// They have the same value.
    Equal,
    /// They have not.
    Unequal,
}

impl Token {
    /// Which token it is: 1 to 7, in the order of the enum.
    pub fn tag(self) -> u8
        ensures { result ≡ tag_of self }
    {
        match self {
            Token::Boolean(_) => 1,
            Token::Not => 2,
            Token::And => 3,
            Token::Or => 4,
            Token::Xor => 5,
            Token::Equal => 6,
            Token::Unequal => 7,
        }
    }

    /// The number of its boolean; 0 for an operator.
    fn number(self) -> u32
        ensures { result ≡ number_of self }
    {
        match self {
            Token::Boolean(number) => number,
            _ => 0,
        }
    }
}

impl PartialEq for Token {
    ghost eq = { eq_by_cmp token_cmp };

    ghost laws = { partial_equiv_from_equiv (eq_by_cmp_equiv token_total) };

    fn eq(&self, other: &Token) -> bool {
        self.cmp(other) == Ordering::Equal
    }
}

impl Eq for Token {
    ghost laws = { eq_by_cmp_equiv token_total };
}

impl PartialOrd for Token {
    ghost partial_cmp = { as_partial_cmp token_cmp };

    ghost laws = { partial_order_from_total token_total };

    fn partial_cmp(&self, other: &Token) -> Option<Ordering> {
        Some(self.cmp(other))
    }
}

impl Ord for Token {
    ghost cmp = { token_cmp };

    ghost total = { token_total };

    ghost matches_partial_cmp = { λ a b. refl };

    ghost matches_eq = { λ a b. refl };

    fn cmp(&self, other: &Token) -> Ordering {
        self.tag()
            .cmp(&other.tag())
            .then(self.number().cmp(&other.number()))
    }
}
