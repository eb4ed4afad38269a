//! The laws of class permissions, as functions that do nothing.

ghost use Rattle.std.specs.Prelude.{List};
ghost use Rattle.cil_macros.specs.Item.{Item, OptSet};
ghost use Rattle.cil_classes.specs.Least.{IsLeast};

/// What class permissions give is what they give under the least assignment of permissions that satisfies all enabled
/// statements, circles of them included.
pub fn least()
    ensures { (xs : List Item) (s : OptSet) → IsLeast xs s }
{}
