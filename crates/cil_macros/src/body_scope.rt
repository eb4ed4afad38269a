//! Where the scope of the statements of a body is found: at the call, where the place of the macro adds nothing to the scope of
//! the call.

ghost use Rattle.std.specs.Prelude.{◌≡◌, ◌+◌, ◌<◌, ◌++◌, ◌∷◌, [], IfOk, IfSome, OnOk, Some, length, slice_get, true};
ghost use Rattle.cil_syntax.specs.Scopes.{Scope, tidy};
ghost use Rattle.cil_blocks.specs.Contents.{Standing};
ghost use Rattle.cil_blocks.specs.Namespaces.{AreNamespaces};
ghost use Rattle.cil_blocks.specs.Numbers.{with_numbers};
ghost use Rattle.cil_blocks.specs.Places.{AreStandings, Numbered, entries_in, places_in, spaces_in};
ghost use Rattle.cil_macros.specs.Macros.{all_standing};
ghost use Rattle.cil_macros.specs.Walks.{AreBrought, HasScope, IsBodyScope, IsScope, placed_in};

use crate::calls::scope_place;
use crate::chain::Brought;
use cil_base::NoMemory;
use cil_blocks::{ScopeList, Spaces};
use std::alloc::Global;

/// The place of what has the scope of the statements of a macro at a call; none where the place of the macro changes the
/// scope of the call. It costs a step for each namespace of the two scopes.
pub fn body_scope(
    alloc: Global,
    spaces: &Spaces,
    brought: &Brought,
    at: usize,
    called: usize,
    scope: &[usize],
    own: &mut ScopeList,
) -> Result<Option<usize>, NoMemory>
    requires standings { AreStandings spaces.now }
    requires namespaces { AreNamespaces (spaces_in spaces.now) }
    requires brought { AreBrought spaces.now brought.now }
    requires within { at < length (entries_in spaces.now) + length brought.now.entries.items }
    requires scope { HasScope spaces.now brought.now.entries.items at scope.now }
    ensures { IfOk result (λ o. IfSome o (IsBodyScope (all_standing spaces.now) (placed_in spaces.now brought.now.entries.items) at called)) }
{
    if !adds_nothing(alloc, spaces, called, scope, own)? {
        return Ok(None);
    }
    let place = scope_place(spaces, brought, at);
    Ok(Some(place))
}

/// Whether the scope of the macro of a rank, in front of another one, leaves that one as it is.
fn adds_nothing(
    alloc: Global,
    spaces: &Spaces,
    called: usize,
    scope: &[usize],
    own: &mut ScopeList,
) -> Result<bool, NoMemory>
    requires standings { AreStandings spaces.now }
    requires namespaces { AreNamespaces (spaces_in spaces.now) }
    ensures { IfOk result (λ b. b ≡ true → (m : Standing) (l : Scope) → slice_get (all_standing spaces.now) called ≡ Some m → IsScope (spaces_in spaces.now) l scope.now
        → tidy (m.scope ++ l) ≡ l) }
{
    own.clear();
    spaces.add_scope(alloc, called, own)?;
    add_all(scope, own)?;
    own.close()?;
    Ok(are_same(own.as_slice(), scope))
}

/// Adds numbers to a scope, but for that of the global namespace.
fn add_all(numbers: &[usize], scope: &mut ScopeList) -> Result<(), NoMemory>
    ensures { OnOk result (scope.new ≡ with_numbers scope.old numbers.now) }
{
    for number in numbers {
        scope.add(*number)?;
    }
    Ok(())
}

/// Whether two lists have the same numbers.
fn are_same(one: &[usize], other: &[usize]) -> bool
    ensures { result ≡ true → one.now ≡ other.now }
{
    one == other
}
