//! Why an optional is left out.

/// Why an optional of a policy is left out: the optional round it is, or a word of it names nothing. Optionals and other
/// instances have the numbers of their places among all instances of the policy. (CIL Reference Guide, "optional".)
#[derive(Clone, Copy, Debug, PartialEq, Eq)]
pub enum Reason {
    /// The innermost optional round this one is left out.
    ParentOut {
        /// The number of the optional.
        optional: u32,
    },
    /// A word of a statement whose innermost optional this is names nothing that is in force.
    Missing {
        /// The number of the optional.
        optional: u32,
        /// The number of the statement that has the word.
        instance: u32,
        /// The place of the word among those of the statement, counted from 0.
        word: u32,
    },
}

impl Reason {
    ghost use Rattle.std.specs.Prelude.{◌≡◌};
    ghost use Rattle.cil_optionals.specs.Certificate.{left_out};

    /// The number of the optional that is left out.
    pub fn left_out(&self) -> u32
        ensures { result ≡ left_out self.now }
    {
        match self {
            Reason::ParentOut { optional } => *optional,
            Reason::Missing {
                optional: wanting,
                instance: _,
                word: _,
            } => *wanting,
        }
    }
}
