//! Laws of the name spaces. The functions do nothing when they are called; the contract of each is a law.

ghost use Rattle.cil_attrs.specs.Laws.{AliasesStay, IsWhole};

use crate::space::Space;

/// Each symbol of a name space is an item, an alias or an attribute, and just one of these.
pub fn spaces_are_whole<S: Space>()
    ensures { IsWhole S.kinds }
{}

/// The target of an alias is of the name space of the alias.
pub fn aliases_stay<S: Space>()
    ensures { AliasesStay S.kinds }
{}
