//! The name spaces whose words may stand for other symbols, and how many items each may have.

ghost use Rattle.std.specs.Prelude.{◌≡◌, refl, true};
ghost use Rattle.cil_syntax.specs.declared.kind.Sign.{Sign as ASign};
ghost use Rattle.cil_known.specs.Numbers.{has_section};
ghost use Rattle.cil_attrs.specs.declared.giver.SpaceKinds.{SpaceKinds as TheKinds};
ghost use Rattle.cil_attrs.specs.Givers.{AreWritten};
ghost use Rattle.cil_attrs.specs.Laws.{AliasesStay, IsSignOf, IsWhole};
ghost use Rattle.cil_attrs.specs.Limits.{said_limit};
ghost use Rattle.cil_attrs.specs.SetFaults.{limit_of};

use crate::giver::{SetKind, SpaceKinds};
use cil_syntax::{Keyword, Kind, Sign};

/// How many items a name space may have.
#[derive(Clone, Copy)]
pub struct Limit {
    /// The number of items that pass.
    pub most: usize,
    /// The word that tells that there are more.
    pub word: &'static [u8],
}

/// A name space whose words may stand for other symbols. Each `impl` proves the laws, by which sets are made.
pub trait Space {
    /// The kind of its items, the kinds of its sets, and the statements that give these their members.
    ghost kinds: { TheKinds };

    /// What a word wants that may name any of its symbols.
    ghost sign: { ASign };

    /// The kind of its items, the kinds of its sets, and the statements that give these their members.
    fn kinds() -> SpaceKinds
        ensures { result ≡ kinds };

    /// What a word wants that may name any of its symbols.
    fn sign() -> Sign
        ensures { result ≡ sign };

    /// How many items it may have, if that is judged with its sets. Aliases and attributes do not count.
    fn limit() -> Option<Limit>
        ensures { limit_of kinds.item ≡ said_limit result };

    /// Each of its symbols is an item, an alias or an attribute, and just one of these; sets of categories stand apart.
    ghost whole: { IsWhole kinds };

    /// The target of an alias is of the name space of the alias.
    ghost stays: { AliasesStay kinds };

    /// A word of its sign may name each of its symbols, and no other.
    ghost wanted: { IsSignOf kinds sign };

    /// The statements that give sets their members say what is written.
    ghost written: { AreWritten kinds };

    /// Its items have numbers.
    ghost numbered: { has_section kinds.item ≡ true };
}

/// Types, their aliases and attributes.
pub struct Types;

/// Roles and their attributes.
pub struct Roles;

/// Users and their attributes.
pub struct Users;

/// Sensitivities and their aliases.
pub struct Sensitivities;

/// Categories and their aliases, without sets of categories.
pub struct Categories;

impl Space for Types {
    ghost use Rattle.cil_syntax.specs.declared.kind.Sign.TheVariants as signs;
    ghost use Rattle.cil_attrs.specs.NameSpaces.{types_kinds};
    ghost use Rattle.cil_attrs.specs.SpaceLaws.{types_stay, types_wanted, types_whole, types_written};

    ghost kinds = { types_kinds };

    ghost sign = { signs.Types };

    ghost whole = { types_whole };

    ghost stays = { types_stay };

    ghost wanted = { types_wanted };

    ghost written = { types_written };

    ghost numbered = { refl };

    fn kinds() -> SpaceKinds {
        SpaceKinds {
            item: Kind::Type_,
            aliases: Some(SetKind {
                kind: Kind::TypeAlias,
                giving: Keyword::TypeAliasActual,
            }),
            attributes: Some(SetKind {
                kind: Kind::TypeAttribute,
                giving: Keyword::TypeAttributeSet,
            }),
        }
    }

    fn sign() -> Sign {
        Sign::Types
    }

    fn limit() -> Option<Limit> {
        Some(Limit {
            most: 65_535,
            word: b"types",
        })
    }
}

impl Space for Roles {
    ghost use Rattle.cil_syntax.specs.declared.kind.Sign.TheVariants as signs;
    ghost use Rattle.cil_attrs.specs.NameSpaces.{roles_kinds};
    ghost use Rattle.cil_attrs.specs.SpaceLaws.{roles_stay, roles_wanted, roles_whole, roles_written};

    ghost kinds = { roles_kinds };

    ghost sign = { signs.Roles };

    ghost whole = { roles_whole };

    ghost stays = { roles_stay };

    ghost wanted = { roles_wanted };

    ghost written = { roles_written };

    ghost numbered = { refl };

    fn kinds() -> SpaceKinds {
        SpaceKinds {
            item: Kind::Role,
            aliases: None,
            attributes: Some(SetKind {
                kind: Kind::RoleAttribute,
                giving: Keyword::RoleAttributeSet,
            }),
        }
    }

    fn sign() -> Sign {
        Sign::Roles
    }

    fn limit() -> Option<Limit> {
        Some(Limit {
            most: 4_096,
            word: b"roles",
        })
    }
}

impl Space for Users {
    ghost use Rattle.cil_syntax.specs.declared.kind.Sign.TheVariants as signs;
    ghost use Rattle.cil_attrs.specs.NameSpaces.{users_kinds};
    ghost use Rattle.cil_attrs.specs.SpaceLaws.{users_stay, users_wanted, users_whole, users_written};

    ghost kinds = { users_kinds };

    ghost sign = { signs.Users };

    ghost whole = { users_whole };

    ghost stays = { users_stay };

    ghost wanted = { users_wanted };

    ghost written = { users_written };

    ghost numbered = { refl };

    fn kinds() -> SpaceKinds {
        SpaceKinds {
            item: Kind::User,
            aliases: None,
            attributes: Some(SetKind {
                kind: Kind::UserAttribute,
                giving: Keyword::UserAttributeSet,
            }),
        }
    }

    fn sign() -> Sign {
        Sign::Users
    }

    fn limit() -> Option<Limit> {
        Some(Limit {
            most: 4_096,
            word: b"users",
        })
    }
}

impl Space for Sensitivities {
    ghost use Rattle.cil_syntax.specs.declared.kind.Sign.TheVariants as signs;
    ghost use Rattle.cil_attrs.specs.NameSpaces.{sensitivities_kinds};
    ghost use Rattle.cil_attrs.specs.SpaceLaws.{sensitivities_stay, sensitivities_wanted, sensitivities_whole, sensitivities_written};

    ghost kinds = { sensitivities_kinds };

    ghost sign = { signs.Sensitivities };

    ghost whole = { sensitivities_whole };

    ghost stays = { sensitivities_stay };

    ghost wanted = { sensitivities_wanted };

    ghost written = { sensitivities_written };

    ghost numbered = { refl };

    fn kinds() -> SpaceKinds {
        SpaceKinds {
            item: Kind::Sensitivity,
            aliases: Some(SetKind {
                kind: Kind::SensitivityAlias,
                giving: Keyword::SensitivityAliasActual,
            }),
            attributes: None,
        }
    }

    fn sign() -> Sign {
        Sign::Sensitivities
    }

    fn limit() -> Option<Limit> {
        None
    }
}

impl Space for Categories {
    ghost use Rattle.cil_syntax.specs.declared.kind.Sign.TheVariants as signs;
    ghost use Rattle.cil_attrs.specs.NameSpaces.{categories_kinds};
    ghost use Rattle.cil_attrs.specs.SpaceLaws.{categories_stay, categories_wanted, categories_whole, categories_written};

    ghost kinds = { categories_kinds };

    ghost sign = { signs.Categories };

    ghost whole = { categories_whole };

    ghost stays = { categories_stay };

    ghost wanted = { categories_wanted };

    ghost written = { categories_written };

    ghost numbered = { refl };

    fn kinds() -> SpaceKinds {
        SpaceKinds {
            item: Kind::Category,
            aliases: Some(SetKind {
                kind: Kind::CategoryAlias,
                giving: Keyword::CategoryAliasActual,
            }),
            attributes: None,
        }
    }

    fn sign() -> Sign {
        Sign::Categories
    }

    fn limit() -> Option<Limit> {
        None
    }
}
