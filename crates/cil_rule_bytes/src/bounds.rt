//! What the sections before rules say of the numbers in them.

/// How many types and booleans there are, and how many permissions each class has.
#[derive(Clone, Copy, Debug)]
pub struct Bounds<'b> {
    /// How many types there are.
    pub types: usize,
    /// How many booleans there are.
    pub booleans: usize,
    /// For each class how many permissions it has.
    pub widths: &'b [usize],
}
