//! The kinds of names: the name space of each, and which of them a word wants.

use crate::kind::{Kind, Sign};

/// The kinds whose names have to differ.
#[derive(Clone, Copy, Debug, PartialEq, Eq)]
pub enum NameSpace {
    /// Types, their aliases and attributes.
    Types,
    /// Roles and their attributes.
    Roles,
    /// Users and their attributes.
    Users,
    /// Classes and class maps.
    Classes,
    /// Blocks and macros.
    Blocks,
    /// Permissions that classes share.
    Commons,
    /// Class permissions.
    ClassPermissions,
    /// Booleans.
    Booleans,
    /// Sensitivities and their aliases.
    Sensitivities,
    /// Categories, their aliases and sets.
    Categories,
    /// Levels.
    Levels,
    /// Ranges of levels.
    LevelRanges,
}

impl NameSpace {
    ghost use Rattle.std.specs.Prelude.{◌≡◌};
    ghost use Rattle.cil_syntax.specs.NameSpaces.{rank_in};

    /// The place of a name space among all.
    pub fn rank(self) -> u8
        ensures { result ≡ rank_in self }
    {
        match self {
            NameSpace::Types => 0,
            NameSpace::Roles => 1,
            NameSpace::Users => 2,
            NameSpace::Classes => 3,
            NameSpace::Blocks => 4,
            NameSpace::Commons => 5,
            NameSpace::ClassPermissions => 6,
            NameSpace::Booleans => 7,
            NameSpace::Sensitivities => 8,
            NameSpace::Categories => 9,
            NameSpace::Levels => 10,
            NameSpace::LevelRanges => 11,
        }
    }
}

impl Kind {
    ghost use Rattle.std.specs.Prelude.{◌≡◌};
    ghost use Rattle.cil_syntax.specs.Kinds.{kind_number};
    ghost use Rattle.cil_syntax.specs.NameSpaces.{name_space, rank};

    /// The name space of a kind.
    pub fn name_space(self) -> NameSpace
        ensures { result ≡ name_space self }
    {
        match self {
            Kind::Type_ | Kind::TypeAlias | Kind::TypeAttribute => NameSpace::Types,
            Kind::Role | Kind::RoleAttribute => NameSpace::Roles,
            Kind::User | Kind::UserAttribute => NameSpace::Users,
            Kind::Class | Kind::ClassMap => NameSpace::Classes,
            Kind::Block | Kind::Macro => NameSpace::Blocks,
            Kind::Common => NameSpace::Commons,
            Kind::ClassPermission => NameSpace::ClassPermissions,
            Kind::Boolean => NameSpace::Booleans,
            Kind::Sensitivity | Kind::SensitivityAlias => NameSpace::Sensitivities,
            Kind::Category | Kind::CategoryAlias | Kind::CategorySet => NameSpace::Categories,
            Kind::Level => NameSpace::Levels,
            Kind::LevelRange => NameSpace::LevelRanges,
        }
    }

    /// The place of its name space among all.
    pub fn rank(self) -> u8
        ensures { result ≡ rank self }
    {
        self.name_space().rank()
    }

    /// The place of a kind among all.
    pub fn number(self) -> u8
        ensures { result ≡ kind_number self }
    {
        match self {
            Kind::Type_ => 0,
            Kind::TypeAlias => 1,
            Kind::TypeAttribute => 2,
            Kind::Role => 3,
            Kind::RoleAttribute => 4,
            Kind::User => 5,
            Kind::UserAttribute => 6,
            Kind::Class => 7,
            Kind::ClassMap => 8,
            Kind::Block => 9,
            Kind::Macro => 10,
            Kind::Common => 11,
            Kind::ClassPermission => 12,
            Kind::Boolean => 13,
            Kind::Sensitivity => 14,
            Kind::SensitivityAlias => 15,
            Kind::Category => 16,
            Kind::CategoryAlias => 17,
            Kind::CategorySet => 18,
            Kind::Level => 19,
            Kind::LevelRange => 20,
        }
    }
}

impl Sign {
    ghost use Rattle.std.specs.Prelude.{◌≡◌, MatchOption, false, true};
    ghost use Rattle.cil_syntax.specs.Kinds.{is_wanted, kinds_of};
    ghost use Rattle.cil_syntax.specs.NameSpaces.{name_space, rank};

    /// The kinds that a word may name.
    pub fn kinds(self) -> &'static [Kind]
        ensures { result.now ≡ kinds_of self }
    {
        match self {
            Sign::Types => &[Kind::Type_, Kind::TypeAlias, Kind::TypeAttribute],
            Sign::PlainType => &[Kind::Type_, Kind::TypeAlias],
            Sign::TypeAttributes => &[Kind::TypeAttribute],
            Sign::TypeAliases => &[Kind::TypeAlias],
            Sign::Roles => &[Kind::Role, Kind::RoleAttribute],
            Sign::PlainRole => &[Kind::Role],
            Sign::RoleAttributes => &[Kind::RoleAttribute],
            Sign::Users => &[Kind::User, Kind::UserAttribute],
            Sign::PlainUser => &[Kind::User],
            Sign::UserAttributes => &[Kind::UserAttribute],
            Sign::Classes => &[Kind::Class, Kind::ClassMap],
            Sign::PlainClass => &[Kind::Class],
            Sign::ClassMaps => &[Kind::ClassMap],
            Sign::Commons => &[Kind::Common],
            Sign::ClassPermissions | Sign::NamedPermissions | Sign::MappedPermissions => {
                &[Kind::ClassPermission]
            }
            Sign::Booleans => &[Kind::Boolean],
            Sign::Sensitivities => &[Kind::Sensitivity, Kind::SensitivityAlias],
            Sign::SensitivityAliases => &[Kind::SensitivityAlias],
            Sign::Categories => &[Kind::Category, Kind::CategoryAlias],
            Sign::CategoryAliases => &[Kind::CategoryAlias],
            Sign::CategorySets => &[Kind::Category, Kind::CategoryAlias, Kind::CategorySet],
            Sign::Levels => &[Kind::Level],
            Sign::LevelRanges => &[Kind::LevelRange],
            Sign::Blocks => &[Kind::Block],
            Sign::Macros => &[Kind::Macro],
            Sign::Permission | Sign::Text | Sign::Unread => &[],
        }
    }

    /// The name space of the kinds that a word wants; none where it wants none.
    pub fn name_space(self) -> Option<NameSpace>
        ensures { MatchOption result ((kind : _) → is_wanted self kind ≡ false) (λ n. (kind : _) → is_wanted self kind ≡ true → name_space kind ≡ n) }
    {
        match self {
            Sign::Types | Sign::PlainType | Sign::TypeAttributes | Sign::TypeAliases => {
                Some(NameSpace::Types)
            }
            Sign::Roles | Sign::PlainRole | Sign::RoleAttributes => Some(NameSpace::Roles),
            Sign::Users | Sign::PlainUser | Sign::UserAttributes => Some(NameSpace::Users),
            Sign::Classes | Sign::PlainClass | Sign::ClassMaps => Some(NameSpace::Classes),
            Sign::Blocks | Sign::Macros => Some(NameSpace::Blocks),
            Sign::Commons => Some(NameSpace::Commons),
            Sign::ClassPermissions | Sign::NamedPermissions | Sign::MappedPermissions => {
                Some(NameSpace::ClassPermissions)
            }
            Sign::Booleans => Some(NameSpace::Booleans),
            Sign::Sensitivities | Sign::SensitivityAliases => Some(NameSpace::Sensitivities),
            Sign::Categories | Sign::CategoryAliases | Sign::CategorySets => {
                Some(NameSpace::Categories)
            }
            Sign::Levels => Some(NameSpace::Levels),
            Sign::LevelRanges => Some(NameSpace::LevelRanges),
            Sign::Permission | Sign::Text | Sign::Unread => None,
        }
    }

    /// The place of that name space among all; none where the word wants no kind.
    pub fn rank(self) -> Option<u8>
        ensures { MatchOption result ((kind : _) → is_wanted self kind ≡ false) (λ r. (kind : _) → is_wanted self kind ≡ true → rank kind ≡ r) }
    {
        let wanted = self.name_space()?;
        Some(wanted.rank())
    }

    /// Whether a word may name a symbol of this kind.
    pub fn wants(self, kind: Kind) -> bool
        ensures { result ≡ is_wanted self kind }
    {
        match self {
            Sign::Types => matches!(kind, Kind::Type_ | Kind::TypeAlias | Kind::TypeAttribute),
            Sign::PlainType => matches!(kind, Kind::Type_ | Kind::TypeAlias),
            Sign::TypeAttributes => matches!(kind, Kind::TypeAttribute),
            Sign::TypeAliases => matches!(kind, Kind::TypeAlias),
            Sign::Roles => matches!(kind, Kind::Role | Kind::RoleAttribute),
            Sign::PlainRole => matches!(kind, Kind::Role),
            Sign::RoleAttributes => matches!(kind, Kind::RoleAttribute),
            Sign::Users => matches!(kind, Kind::User | Kind::UserAttribute),
            Sign::PlainUser => matches!(kind, Kind::User),
            Sign::UserAttributes => matches!(kind, Kind::UserAttribute),
            Sign::Classes => matches!(kind, Kind::Class | Kind::ClassMap),
            Sign::PlainClass => matches!(kind, Kind::Class),
            Sign::ClassMaps => matches!(kind, Kind::ClassMap),
            Sign::Commons => matches!(kind, Kind::Common),
            Sign::ClassPermissions | Sign::NamedPermissions | Sign::MappedPermissions => {
                matches!(kind, Kind::ClassPermission)
            }
            Sign::Booleans => matches!(kind, Kind::Boolean),
            Sign::Sensitivities => matches!(kind, Kind::Sensitivity | Kind::SensitivityAlias),
            Sign::SensitivityAliases => matches!(kind, Kind::SensitivityAlias),
            Sign::Categories => matches!(kind, Kind::Category | Kind::CategoryAlias),
            Sign::CategoryAliases => matches!(kind, Kind::CategoryAlias),
            Sign::CategorySets => {
                matches!(
                    kind,
                    Kind::Category | Kind::CategoryAlias | Kind::CategorySet
                )
            }
            Sign::Levels => matches!(kind, Kind::Level),
            Sign::LevelRanges => matches!(kind, Kind::LevelRange),
            Sign::Blocks => matches!(kind, Kind::Block),
            Sign::Macros => matches!(kind, Kind::Macro),
            Sign::Permission | Sign::Text | Sign::Unread => false,
        }
    }
}
