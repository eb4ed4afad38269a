//! What calls bring, as it is kept.

/// A statement that a call brings. Its namespace, its scope and the arguments follow from the call.
#[derive(Clone, Copy, Debug, PartialEq, Eq)]
pub struct Called {
    /// The number of the statement.
    pub statement: usize,
    /// The place of the one that opened it, the call that brings it or an optional that such a call brings, among all that is
    /// placed: first what stands, and then what calls bring.
    pub opener: usize,
    /// The number of the body that it belongs to.
    pub body: usize,
}

/// The body of a macro at a call.
#[derive(Clone, Copy)]
pub struct Body {
    /// The place of the call among all that is placed.
    pub call: usize,
    /// The place of the macro among all that stands.
    pub macro_rank: usize,
    /// The number of the namespace in which its statements are.
    pub space: usize,
    /// The place of what has the scope of its statements; none where that follows from the macro and the call alone.
    pub scope: Option<usize>,
}
