//! What is wrong, in a few words.

ghost use Rattle.std.specs.Prelude.{◌≡◌};
ghost use Rattle.cil_locate.specs.Sentences.{reading_sentence, sentence_of};

use cil_faults::FaultCode;
use cil_sexpr::ReadCode;

/// What is wrong with the text of a policy.
pub(crate) fn sentence(code: FaultCode) -> &'static str
    ensures { result.now ≡ sentence_of code }
{
    match code {
        FaultCode::UnknownStatement => "unknown statement",
        FaultCode::Unsupported => "not supported",
        FaultCode::BadShape => "wrong shape",
        FaultCode::BadPlace => "wrong place",
        FaultCode::BadName => "no name",
        FaultCode::ReservedName => "reserved word",
        FaultCode::ParameterClash => "name of a parameter",
        FaultCode::NameTwice => "two blocks or macros of one name",
        FaultCode::InheritUnresolved => "no such block",
        FaultCode::InheritCycle => "block that inherits itself",
        FaultCode::CallCycle => "macro that calls itself",
        FaultCode::CallArguments => "wrong arguments",
        FaultCode::Clash => "two different declarations",
        FaultCode::CallPlace => "call of what no branch may have",
        FaultCode::ExpansionLimit => "too many statements",
        FaultCode::Unresolved => "unresolved name",
        FaultCode::AliasOpen => "alias without a target",
        FaultCode::AliasTwice => "alias with two targets",
        FaultCode::AliasCycle => "alias that leads to itself",
        FaultCode::SetCycle => "set that depends on itself",
        FaultCode::ClassWide => "class with too many permissions",
        FaultCode::CommonTwice => "class with two different commons",
        FaultCode::SensitivityOrder => "no one order of sensitivities",
        FaultCode::CategoryOrder => "no one order of categories",
        FaultCode::MlsTwice => "levels both on and off",
        FaultCode::TooMany => "too many of one kind",
        FaultCode::LevelCategory => "category not permitted to the sensitivity",
        FaultCode::RangeOrder => "range from high to low",
        FaultCode::UserNoRange => "user without a range",
        FaultCode::UserRangeTwice => "user with two ranges",
        FaultCode::NeverAllow => "forbidden and allowed",
    }
}

/// Why a text cannot be read.
pub(crate) fn sentence_of_reading(code: ReadCode) -> &'static str
    ensures { result.now ≡ reading_sentence code }
{
    match code {
        ReadCode::TooLong => "text of more than 4194304 bytes",
        ReadCode::Unclosed => "list that is not closed",
        ReadCode::StrayClose => "bracket that closes no list",
        ReadCode::OpenQuote => "string that is not closed on its line",
        ReadCode::BadByte => "byte that is not allowed in a text",
        ReadCode::TooDeep => "lists nested more than 128 deep",
        ReadCode::OutsideList => "word or string outside all lists",
    }
}
