//! The branches of booleanifs, and their order.

ghost use Rattle.std.specs.Prelude.{◌≡◌, refl};
ghost use Rattle.std.specs.Cmp.{eq_by_cmp_equiv, partial_equiv_from_equiv, partial_order_from_total};
ghost use Rattle.std.specs.Ordering.{as_partial_cmp, eq_by_cmp};
ghost use Rattle.cil_conditions.specs.Order.{branch_cmp, branch_tag, branch_total};

use crate::condition::Cond;
use std::cmp::Ordering;

/// A branch of a booleanif. Branches of true come before those of false, and then stand in the order of their conditions: by tokens, the
/// first that differs.
#[derive(Debug, Drop)]
pub struct Branch {
    /// The condition.
    pub condition: Cond,
    /// The value of the condition for which the branch is active.
    pub value: bool,
}

impl PartialEq for Branch {
    ghost eq = { eq_by_cmp branch_cmp };

    ghost laws = { partial_equiv_from_equiv (eq_by_cmp_equiv branch_total) };

    fn eq(&self, other: &Branch) -> bool {
        self.cmp(other) == Ordering::Equal
    }
}

impl Eq for Branch {
    ghost laws = { eq_by_cmp_equiv branch_total };
}

impl PartialOrd for Branch {
    ghost partial_cmp = { as_partial_cmp branch_cmp };

    ghost laws = { partial_order_from_total branch_total };

    fn partial_cmp(&self, other: &Branch) -> Option<Ordering> {
        Some(self.cmp(other))
    }
}

impl Ord for Branch {
    ghost cmp = { branch_cmp };

    ghost total = { branch_total };

    ghost matches_partial_cmp = { λ a b. refl };

    ghost matches_eq = { λ a b. refl };

    fn cmp(&self, other: &Branch) -> Ordering {
        let first = tag_of(self.value).cmp(&tag_of(other.value));
        first.then(self.condition.as_slice().cmp(other.condition.as_slice()))
    }
}

/// The number of a value in the order of branches.
fn tag_of(value: bool) -> u8
    ensures { result ≡ branch_tag value }
{
    if value { 1 } else { 2 }
}
