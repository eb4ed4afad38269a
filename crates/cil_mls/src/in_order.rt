//! The sensitivities and categories of a policy in their orders.

/// The orders of a policy, and whether its levels are on.
#[derive(Drop)]
pub struct Orders {
    /// The sensitivities from the lowest to the highest, by their numbers.
    pub sensitivities: Vec<usize>,
    /// The categories from the lowest to the highest, by their numbers.
    pub categories: Vec<usize>,
    /// Whether contexts have levels: whether an `mls` statement says so.
    pub are_on: bool,
}
