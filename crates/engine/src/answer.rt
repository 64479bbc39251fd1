//! What an engine answers.

/// Whether two nets agree under every input code.
// Not `Option` of a verdict: the product names three answers, and in one enum each has its name.
#[derive(Clone, Copy, PartialEq, Eq, Debug)]
pub enum Answer {
    /// They agree under every code.
    Equal,
    /// They differ under this input code.
    Unequal(u64),
    /// The engine does not know.
    Undecided,
}
