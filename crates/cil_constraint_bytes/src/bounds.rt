//! What the sections before the constraints say of the numbers in them.

ghost use Rattle.std.specs.Prelude.{◌≡◌};
ghost use Rattle.cil_constraint_bytes.specs.Bounds.{limits_of};
ghost use Rattle.cil_constraint_bytes.specs.Layout as layout;

/// How many there are of what constraints name by number.
#[derive(Clone, Copy, Debug)]
pub struct Bounds<'a> {
    /// How many permissions each class has.
    pub widths: &'a [usize],
    /// How many users there are.
    pub users: usize,
    /// How many roles there are.
    pub roles: usize,
    /// How many types there are.
    pub types: usize,
    /// Whether the policy has levels.
    pub are_on: bool,
}

/// The first byte that is no variable.
pub(crate) fn variables(bounds: &Bounds) -> u8
    ensures { result ≡ layout.variables (limits_of bounds.now) }
{
    if bounds.are_on { 10 } else { 6 }
}

/// How many items there are of which a set may have some, by the variable that is compared with it.
pub(crate) fn members(bounds: &Bounds, variable: u8) -> usize
    ensures { result ≡ layout.members (limits_of bounds.now) variable }
{
    if variable < 2 {
        return bounds.users;
    }
    if variable < 4 {
        return bounds.roles;
    }
    bounds.types
}
