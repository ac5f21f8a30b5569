//! What an advisor keeps of a proposal.

use ae_base::Polarity;

/// What an advisor was told of a proposal.
#[derive(Clone, Copy, Debug, PartialEq, Eq)]
pub enum Told {
    /// Nothing yet.
    Untold,
    /// It costs more than the limit.
    Over,
    /// It costs so much.
    Cost(u64),
}

/// A proposal with what the advisor was told of it.
#[derive(Clone, Copy, Debug, PartialEq, Eq)]
pub struct Entry {
    /// The polarity that was proposed.
    pub polarity: Polarity,
    /// What the advisor was told of its cost.
    pub cost: Told,
}
