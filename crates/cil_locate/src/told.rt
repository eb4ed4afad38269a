//! The order in which faults are told.

ghost use Rattle.std.specs.Prelude.{◌≡◌, Contains, refl};
ghost use Rattle.std.specs.Cmp.{eq_by_cmp_equiv, partial_equiv_from_equiv, partial_order_from_total};
ghost use Rattle.std.specs.Ordering.{as_partial_cmp, eq_by_cmp};
ghost use Rattle.cil_base.specs.Lists.{Lists};
ghost use Rattle.cil_locate.specs.Order.{told_cmp, told_total};

use std::cmp::Ordering;

/// A fault, or another thing that is told, by what decides where it is told. They are compared by their fields in this order.
#[derive(Clone, Copy, Debug)]
pub(crate) struct Told {
    /// One more than the number of the file that it is told of; 0 where it is told of the policy.
    pub(crate) origin: usize,
    /// Its place in the file, as a number of bytes from its start.
    pub(crate) at: u64,
    /// Its number among all that are told, in the order of LOAD.
    pub(crate) number: usize,
}

/// All of them in order. It takes no memory; a sort is its cost.
pub(crate) fn in_order(told: Vec<Told>) -> Vec<Told>
    ensures { Lists told_cmp (Contains told.items) result.items }
{
    let mut told = told;
    told.sort_unstable();
    told.dedup();
    told
}

impl PartialEq for Told {
    ghost eq = { eq_by_cmp told_cmp };

    ghost laws = { partial_equiv_from_equiv (eq_by_cmp_equiv told_total) };

    fn eq(&self, other: &Told) -> bool {
        self.cmp(other) == Ordering::Equal
    }
}

impl Eq for Told {
    ghost laws = { eq_by_cmp_equiv told_total };
}

impl PartialOrd for Told {
    ghost partial_cmp = { as_partial_cmp told_cmp };

    ghost laws = { partial_order_from_total told_total };

    fn partial_cmp(&self, other: &Told) -> Option<Ordering> {
        Some(self.cmp(other))
    }
}

impl Ord for Told {
    ghost cmp = { told_cmp };

    ghost total = { told_total };

    ghost matches_partial_cmp = { λ a b. refl };

    ghost matches_eq = { λ a b. refl };

    fn cmp(&self, other: &Told) -> Ordering {
        self.origin
            .cmp(&other.origin)
            .then(self.at.cmp(&other.at))
            .then(self.number.cmp(&other.number))
    }
}
