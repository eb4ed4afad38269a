//! The causes of faults, and their numbers.

use std::fmt;

/// What is wrong with the text of a policy. The variants are in the order of their numbers.
#[derive(Clone, Copy, Debug, PartialEq, Eq)]
pub enum FaultCode {
    /// No statement begins with this word.
    UnknownStatement,
    /// A statement or a form that this product does not take.
    Unsupported,
    /// The statement has not the shape that its first word asks for.
    BadShape,
    /// The statement may not stand where it is written.
    BadPlace,
    /// A name or a looked-up word is not spelled as one.
    BadName,
    /// A reserved word in the place of a name or a looked-up word.
    ReservedName,
    /// A parameter of a macro is named twice, or a declaration in its body has the name of a parameter.
    ParameterClash,
    /// Two blocks or macros have one name in one namespace.
    NameTwice,
    /// A word names no block that could be inherited.
    InheritUnresolved,
    /// A block inherits itself, in one or more steps.
    InheritCycle,
    /// A macro calls itself, in one or more steps.
    CallCycle,
    /// A call has the wrong number of arguments, or an argument of the wrong form.
    CallArguments,
    /// Two different declarations have one name.
    Clash,
    /// A call in a branch of a booleanif brings a statement that may not stand in a branch.
    CallPlace,
    /// The policy has too many statements when all blocks and calls are expanded.
    ExpansionLimit,
    /// A word names nothing.
    Unresolved,
    /// An alias has no target that is enabled.
    AliasOpen,
    /// Statements give an alias two different targets.
    AliasTwice,
    /// An alias leads to itself, in one or more steps.
    AliasCycle,
    /// An attribute depends on itself, in one or more steps.
    SetCycle,
    /// A class has more permissions than a class may have.
    ClassWide,
    /// A class shares the permissions of two different commons.
    CommonTwice,
    /// The sensitivities have no order, or several.
    SensitivityOrder,
    /// The categories have no order, or several.
    CategoryOrder,
    /// Levels are turned on and off at once.
    MlsTwice,
    /// The policy has more of one kind than a policy may have.
    TooMany,
    /// A level has a category that is not permitted to its sensitivity.
    LevelCategory,
    /// The high end of a range does not dominate the low end, or a range of categories goes downwards.
    RangeOrder,
    /// A user has no range, though levels are on.
    UserNoRange,
    /// Statements give a user two different ranges.
    UserRangeTwice,
    /// A statement allows what another forbids.
    NeverAllow,
}

impl FaultCode {
    ghost use Rattle.std.specs.Prelude.{◌≡◌};
    ghost use Rattle.cil_faults.specs.Codes.{number_of};

    /// The number of this cause in a printed fault: from 21 to 65.
    pub fn number(self) -> u32
        ensures { result ≡ number_of self }
    {
        match self {
            FaultCode::UnknownStatement => 21,
            FaultCode::Unsupported => 22,
            FaultCode::BadShape => 23,
            FaultCode::BadPlace => 24,
            FaultCode::BadName => 25,
            FaultCode::ReservedName => 26,
            FaultCode::ParameterClash => 27,
            FaultCode::NameTwice => 31,
            FaultCode::InheritUnresolved => 32,
            FaultCode::InheritCycle => 33,
            FaultCode::CallCycle => 34,
            FaultCode::CallArguments => 35,
            FaultCode::Clash => 36,
            FaultCode::CallPlace => 37,
            FaultCode::ExpansionLimit => 38,
            FaultCode::Unresolved => 41,
            FaultCode::AliasOpen => 51,
            FaultCode::AliasTwice => 52,
            FaultCode::AliasCycle => 53,
            FaultCode::SetCycle => 54,
            FaultCode::ClassWide => 55,
            FaultCode::CommonTwice => 56,
            FaultCode::SensitivityOrder => 57,
            FaultCode::CategoryOrder => 58,
            FaultCode::MlsTwice => 59,
            FaultCode::TooMany => 60,
            FaultCode::LevelCategory => 61,
            FaultCode::RangeOrder => 62,
            FaultCode::UserNoRange => 63,
            FaultCode::UserRangeTwice => 64,
            FaultCode::NeverAllow => 65,
        }
    }
}

impl fmt::Display for FaultCode {
    fn fmt<W: fmt::Write>(&self, f: &mut fmt::Formatter<W>) -> fmt::Result {
        match self {
            FaultCode::UnknownStatement => write!(f, "unknown statement"),
            FaultCode::Unsupported => write!(f, "not supported"),
            FaultCode::BadShape => write!(f, "wrong shape"),
            FaultCode::BadPlace => write!(f, "wrong place"),
            FaultCode::BadName => write!(f, "no name"),
            FaultCode::ReservedName => write!(f, "reserved word"),
            FaultCode::ParameterClash => write!(f, "name of a parameter"),
            FaultCode::NameTwice => write!(f, "two blocks or macros of one name"),
            FaultCode::InheritUnresolved => write!(f, "no such block"),
            FaultCode::InheritCycle => write!(f, "block that inherits itself"),
            FaultCode::CallCycle => write!(f, "macro that calls itself"),
            FaultCode::CallArguments => write!(f, "wrong arguments"),
            FaultCode::Clash => write!(f, "two different declarations"),
            FaultCode::CallPlace => write!(f, "call of what no branch may have"),
            FaultCode::ExpansionLimit => write!(f, "too many statements"),
            FaultCode::Unresolved => write!(f, "unresolved name"),
            FaultCode::AliasOpen => write!(f, "alias without a target"),
            FaultCode::AliasTwice => write!(f, "alias with two targets"),
            FaultCode::AliasCycle => write!(f, "alias that leads to itself"),
            FaultCode::SetCycle => write!(f, "set that depends on itself"),
            FaultCode::ClassWide => write!(f, "class with too many permissions"),
            FaultCode::CommonTwice => write!(f, "class with two different commons"),
            FaultCode::SensitivityOrder => write!(f, "no one order of sensitivities"),
            FaultCode::CategoryOrder => write!(f, "no one order of categories"),
            FaultCode::MlsTwice => write!(f, "levels both on and off"),
            FaultCode::TooMany => write!(f, "too many of one kind"),
            FaultCode::LevelCategory => write!(f, "category not permitted to the sensitivity"),
            FaultCode::RangeOrder => write!(f, "range from high to low"),
            FaultCode::UserNoRange => write!(f, "user without a range"),
            FaultCode::UserRangeTwice => write!(f, "user with two ranges"),
            FaultCode::NeverAllow => write!(f, "forbidden and allowed"),
        }
    }
}
