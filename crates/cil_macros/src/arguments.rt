//! Whether the arguments of a call fit the parameters of a macro, at the cost of one visit for each parameter. What an
//! argument of each kind is, and where it may be put, is asked here alone.

ghost use Rattle.std.specs.Prelude.{◌≡◌, ℕ, false, List, MatchOption, drop};
ghost use Rattle.std.specs.Option.{option_map};
ghost use Rattle.cil_syntax.specs.declared.term.Word.{Word};
ghost use Rattle.cil_syntax.specs.Said.{all_said, args_of, said_of};
ghost use Rattle.cil_syntax.specs.Shapes.{any_text, looked_up};
ghost use Rattle.cil_syntax.specs.Terms.{Terms, cons};
ghost use Rattle.cil_macros.specs.Fits.{fits, is_of_kind, is_read_as, is_sound_word};
ghost use Rattle.cil_macros.specs.Meant.{kind_sign};
ghost use Rattle.cil_macros.specs.Parameters.{argument_kind, call_arguments, is_text, macro_parameters, may_be_list, parameters_in, place_number, place_of};

use crate::list_arguments::{is_class_permission, is_level, is_range, is_set};
use cil_syntax::{Op, Sign, Statement, Term, is_reserved, is_spelled_for};

/// Whether the arguments of a call fit the parameters of a macro: they are as many, and each has the form of its
/// parameter's kind.
pub fn arguments_fit(called: &Statement, call: &Statement) -> bool
    ensures { result ≡ fits (macro_parameters (args_of called.now)) (call_arguments (args_of call.now)) }
{
    all_fit(listed(called), called.at.module, listed(call))
}

/// The items of the list behind the first term of a statement: none where no list is there.
pub(crate) fn listed<'t, 'a>(statement: &'t Statement<'a>) -> &'t [Term<'a>]
    ensures { all_said statement.now.at.«module» result.now ≡ call_arguments (args_of statement.now) }
{
    if let Some(items) = statement.listed_behind_first() {
        return items;
    }
    // An empty list, of the statement's own lifetime.
    &statement.args.as_slice()[..0]
}

/// Whether arguments fit parameters, which are of this module.
fn all_fit(parameters: &[Term], module: u64, arguments: &[Term]) -> bool
    ensures { (n : ℕ) → result ≡ fits (parameters_in (all_said «module» parameters.now)) (all_said n arguments.now) }
{
    let mut taken = 0;
    for parameter in parameters {
        let Some(next) = behind_fitting(parameter, module, arguments, taken) else {
            return false;
        };
        taken = next;
    }
    taken >= arguments.len()
}

/// The number of the argument behind that of a parameter, whose own has this number: none where there is none, or where it
/// does not fit. What is no parameter takes no argument.
fn behind_fitting(parameter: &Term, module: u64, arguments: &[Term], taken: usize) -> Option<usize>
    ensures { (n : ℕ) (more : Terms Word) → MatchOption result (fits (parameters_in (cons (said_of «module» parameter.now) more)) (all_said n (drop taken arguments.now)) ≡ false)
        (λ next. fits (parameters_in (cons (said_of «module» parameter.now) more)) (all_said n (drop taken arguments.now)) ≡ fits (parameters_in more) (all_said n (drop next arguments.now))) }
{
    let Some(found) = parameter.parameter(module) else {
        return Some(taken);
    };
    let argument = arguments.get(taken)?;
    if !is_of_kind(found.kind, argument) {
        return None;
    }
    Some(taken + 1)
}

/// Whether arguments of a kind may be lists.
pub(crate) fn may_be_list(kind: Op) -> bool
    ensures { result ≡ may_be_list kind }
{
    matches!(
        kind,
        Op::ClassPermissionKind | Op::CategorySetKind | Op::LevelKind | Op::LevelRangeKind
    )
}

/// Whether an argument has the form of a kind.
pub fn is_of_kind(kind: Op, argument: &Term) -> bool
    ensures { (n : ℕ) → result ≡ is_of_kind kind (said_of n argument.now) }
{
    match kind {
        Op::TypeKind => is_word(Sign::Types, argument),
        Op::RoleKind => is_word(Sign::Roles, argument),
        Op::UserKind => is_word(Sign::Users, argument),
        Op::BooleanKind => is_word(Sign::Booleans, argument),
        Op::ClassKind => is_word(Sign::PlainClass, argument),
        Op::ClassMapKind => is_word(Sign::ClassMaps, argument),
        Op::ClassPermissionKind => is_class_permission(argument),
        Op::SensitivityKind => is_word(Sign::Sensitivities, argument),
        Op::CategoryKind => is_word(Sign::Categories, argument),
        Op::CategorySetKind => is_set(Sign::CategorySets, argument),
        Op::LevelKind => is_level(argument),
        Op::LevelRangeKind => is_range(argument),
        Op::NameKind => is_text(argument),
        Op::TextKind => is_text(argument),
        _ => false,
    }
}

/// The number of the place that an argument of a kind serves (`place_number` of `specs/Parameters.antt`): none where there
/// are no such arguments.
pub(crate) fn place_served(kind: Op) -> Option<u8>
    ensures { result ≡ option_map (λ k. place_number k.serves) (argument_kind kind) }
{
    match kind {
        Op::TypeKind => Some(0),
        Op::RoleKind => Some(1),
        Op::UserKind => Some(2),
        Op::ClassKind | Op::ClassMapKind => Some(3),
        Op::NameKind | Op::TextKind => Some(5),
        Op::ClassPermissionKind => Some(7),
        Op::BooleanKind => Some(8),
        Op::SensitivityKind => Some(9),
        Op::CategoryKind | Op::CategorySetKind => Some(10),
        Op::LevelKind => Some(11),
        Op::LevelRangeKind => Some(12),
        _ => None,
    }
}

/// The number of the place where a word of a sign stands: that of its name space, or that of texts. A permission, and
/// an argument that is not read yet, are at none.
pub(crate) fn place_of(sign: Sign) -> Option<u8>
    ensures { result ≡ option_map place_number (place_of sign) }
{
    match sign {
        Sign::Types | Sign::PlainType | Sign::TypeAttributes | Sign::TypeAliases => Some(0),
        Sign::Roles | Sign::PlainRole | Sign::RoleAttributes => Some(1),
        Sign::Users | Sign::PlainUser | Sign::UserAttributes => Some(2),
        Sign::Classes | Sign::PlainClass | Sign::ClassMaps => Some(3),
        Sign::Blocks | Sign::Macros => Some(4),
        Sign::Text => Some(5),
        Sign::Commons => Some(6),
        Sign::ClassPermissions | Sign::NamedPermissions | Sign::MappedPermissions => Some(7),
        Sign::Booleans => Some(8),
        Sign::Sensitivities | Sign::SensitivityAliases => Some(9),
        Sign::Categories | Sign::CategoryAliases | Sign::CategorySets => Some(10),
        Sign::Levels => Some(11),
        Sign::LevelRanges => Some(12),
        Sign::Permission | Sign::Unread => None,
    }
}

/// The sign of a word that is an argument of a kind.
pub(crate) fn sign_of(kind: Op) -> Sign
    ensures { result ≡ kind_sign kind }
{
    match kind {
        Op::TypeKind => Sign::Types,
        Op::RoleKind => Sign::Roles,
        Op::UserKind => Sign::Users,
        Op::BooleanKind => Sign::Booleans,
        Op::ClassKind => Sign::PlainClass,
        Op::ClassMapKind => Sign::ClassMaps,
        Op::SensitivityKind => Sign::Sensitivities,
        Op::CategoryKind => Sign::Categories,
        Op::ClassPermissionKind => Sign::ClassPermissions,
        Op::CategorySetKind => Sign::CategorySets,
        Op::LevelKind => Sign::Levels,
        Op::LevelRangeKind => Sign::LevelRanges,
        _ => Sign::Text,
    }
}

/// Whether an argument is a word that may be looked up.
pub(crate) fn is_word(sign: Sign, argument: &Term) -> bool
    ensures { (n : ℕ) → result ≡ is_read_as (looked_up sign) (said_of n argument.now) }
{
    match argument {
        Term::Leaf(word) => is_sound(sign, word.bytes.as_slice()),
        Term::Name(_, _) => false,
        Term::Form(_, _, _) => false,
    }
}

/// Whether a word has the spelling that its sign wants, and is not reserved.
pub(crate) fn is_sound(sign: Sign, word: &[u8]) -> bool
    ensures { result ≡ is_sound_word sign word.now }
{
    !is_reserved(word) && is_spelled_for(sign, word)
}

/// Whether an argument is a word or a string.
fn is_text(argument: &Term) -> bool
    ensures { (n : ℕ) → result ≡ is_read_as any_text (said_of n argument.now) }
{
    match argument {
        Term::Leaf(_) => true,
        Term::Name(_, _) => true,
        Term::Form(op, _, _) => is_text_op(*op),
    }
}

/// Whether what joins some parts makes a string of them.
pub(crate) fn is_text_op(op: Op) -> bool
    ensures { result ≡ is_text op }
{
    matches!(op, Op::UnreadText)
}
