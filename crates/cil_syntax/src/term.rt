//! What a statement says: its words, each with its position and what it wants. Words are parts of the texts of the modules,
//! not copies of them.

ghost use Rattle.std.specs.Prelude.{◌≡◌};
ghost use Rattle.cil_syntax.specs.Said.{word_in};
ghost use Rattle.cil_faults.specs.Spots.{spot_at};

use crate::kind::Sign;
use cil_faults::Spot;
use std::marker::Model;

/// Bytes of a module's text, where they are written. Contracts see them as their list.
#[derive(Debug, Drop)]
pub struct Excerpt<'a> {
    slice: &'a [u8],
}

impl<'a> Model for Excerpt<'a> {
    ghost use Rattle.std.specs.Prelude.{List, ℕ};

    ghost Value = { List ℕ };

    ghost view = { λ a. a.slice.now };
}

impl<'a> Excerpt<'a> {
    ghost use Rattle.std.specs.Prelude.{◌≡◌};

    /// These bytes, without a copy.
    pub fn of(bytes: &'a [u8]) -> Excerpt<'a>
        ensures { result ≡ bytes.now }
    {
        Excerpt { slice: bytes }
    }

    /// The bytes.
    pub fn as_slice(&self) -> &'a [u8]
        ensures { result.now ≡ self.now }
    {
        self.slice
    }
}

/// A looked-up word.
#[derive(Debug, Drop)]
pub struct Word<'a> {
    /// Where it is written.
    pub at: Spot,
    /// Its bytes.
    pub bytes: Excerpt<'a>,
    /// What it wants.
    pub sign: Sign,
}

/// A looked-up word as a term has it: its module is that of the statement.
#[derive(Debug, Drop)]
pub struct LookedUp<'a> {
    /// Its bytes.
    pub bytes: Excerpt<'a>,
    /// The number of bytes of its module before it.
    pub at: u32,
    /// What it wants.
    pub sign: Sign,
}

impl<'a> LookedUp<'a> {
    /// The word, with the number of the module in which it is written.
    pub fn in_module(&self, module: u64) -> Word<'a>
        ensures { result ≡ word_in «module» self.now }
    {
        Word {
            at: Spot::of(module, self.at),
            bytes: Excerpt::of(self.bytes.as_slice()),
            sign: self.sign,
        }
    }
}

/// What joins the parts of a term.
#[derive(Clone, Copy, Debug, PartialEq, Eq)]
pub enum Op {
    /// A list of names.
    Listed,
    /// A class and a set of its permissions.
    ClassPermissions,
    /// The union of some sets.
    Union,
    /// What is not in a set.
    Not,
    /// What two sets have in common.
    And,
    /// What two sets have together.
    Or,
    /// What one of two sets has and the other has not.
    Xor,
    /// All that there is.
    All,
    /// From one category to another.
    Range,
    /// The one expression in a list.
    Group,
    /// Two things are equal, or have the same value.
    Equal,
    /// They are not.
    Unequal,
    /// The first dominates the second.
    Dominates,
    /// The second dominates the first.
    DominatedBy,
    /// Neither dominates the other.
    Incomparable,
    /// A variable of a constraint: the user of the source.
    SourceUser,
    /// The user of the target.
    TargetUser,
    /// The role of the source.
    SourceRole,
    /// The role of the target.
    TargetRole,
    /// The type of the source.
    SourceType,
    /// The type of the target.
    TargetType,
    /// The low level of the source.
    SourceLow,
    /// The low level of the target.
    TargetLow,
    /// The high level of the source.
    SourceHigh,
    /// The high level of the target.
    TargetHigh,
    /// The word `true`.
    Yes,
    /// The word `false`.
    No,
    /// The statements that count where a condition is true.
    TrueBranch,
    /// The statements that count where it is false.
    FalseBranch,
    /// The word `unordered` in front of classes.
    Unordered,
    /// A level: a sensitivity, and its categories.
    Level,
    /// A range: a low and a high level.
    LevelRange,
    /// The source itself.
    Itself,
    /// A word that is not supported, and that is reported.
    LeftOut,
    /// The parameters of a macro.
    Parameters,
    /// One parameter: its kind and its name.
    Parameter,
    /// The kind of a parameter: types.
    TypeKind,
    /// The kind of a parameter: roles.
    RoleKind,
    /// The kind of a parameter: users.
    UserKind,
    /// The kind of a parameter: a boolean.
    BooleanKind,
    /// The kind of a parameter: a class.
    ClassKind,
    /// The kind of a parameter: a class map.
    ClassMapKind,
    /// The kind of a parameter: a class and its permissions, or their name.
    ClassPermissionKind,
    /// The kind of a parameter: a sensitivity.
    SensitivityKind,
    /// The kind of a parameter: a category.
    CategoryKind,
    /// The kind of a parameter: categories.
    CategorySetKind,
    /// The kind of a parameter: a level.
    LevelKind,
    /// The kind of a parameter: a range of levels.
    LevelRangeKind,
    /// The kind of a parameter: a name.
    NameKind,
    /// The kind of a parameter: a string.
    TextKind,
    /// The arguments of a call.
    Arguments,
    /// A list that is not read yet, with its items.
    UnreadList,
    /// A string, with its text as a name.
    UnreadText,
}

/// What a statement says: a word, a declared name, or a list or fixed word with its parts. A term is of the module of its
/// statement; its position is the number of bytes of that module before it.
#[derive(Debug, Drop)]
pub enum Term<'a> {
    /// A looked-up word.
    Leaf(LookedUp<'a>),
    /// A declared name, and its position.
    Name(u32, Excerpt<'a>),
    /// What joins some parts, and the position where it begins.
    Form(Op, u32, Vec<Term<'a>>),
}

// Policies have millions of terms. Fields lie in the order in which they are written, so the small ones come first.
const _: () = prove!(size_of::<Term>() <= 32);
