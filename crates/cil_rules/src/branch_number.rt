//! The branch of a rule, by its number.

ghost use Rattle.std.specs.Prelude.{◌≡◌, ◌<◌, ℕ, IfOk, List, MatchOption, length, suc};
ghost use Rattle.cil_conditions.specs.Numbered.{AreBranchesOf};
ghost use Rattle.cil_conditions.specs.Spelled.{IsBranchOf};
ghost use Rattle.cil_conditions.specs.Conditions.{IsSaid};
ghost use Rattle.cil_macros.specs.Item.{OptSet};
ghost use Rattle.cil_macros.specs.Items.{item_at, items_in};
ghost use Rattle.cil_rules.specs.Kept.{branch_named};

use cil_base::NoMemory;
use cil_conditions::Branches;
use cil_macros::Instances;

/// The number of the branch in which the statement at a place is, from 1 on; 0 where it is in none. None where a word of the condition
/// names no boolean.
pub fn branch_number(
    instances: &Instances,
    branches: &Branches,
    at: usize,
) -> Result<Option<u32>, NoMemory>
    requires { at < length (items_in instances.now) }
    ensures { IfOk result (λ n. (s : OptSet) (booleans : List (List ℕ)) → AreBranchesOf instances.now s booleans branches.now
        → MatchOption n (IsSaid (items_in instances.now) s (item_at instances.now at).branch → ⊥)
        (λ number. IsBranchOf (items_in instances.now) s booleans (item_at instances.now at).branch (branch_named branches.now.rows number))) }
{
    let Some(branch) = instances.branch(at) else {
        return Ok(Some(0));
    };
    let Some(number) = branches.number(branch.at, branch.value) else {
        return Ok(None);
    };
    Ok(Some(counted(number)?))
}

/// A place as a number from 1 on, in four bytes.
fn counted(place: usize) -> Result<u32, NoMemory>
    ensures { IfOk result (λ number. number ≡ suc place) }
{
    if place >= u32::MAX as usize {
        return Err(NoMemory);
    }
    Ok(place as u32 + 1)
}
