//! The nodes of a diagram.

/// A node: the input that it tests, and the places of its two parts. It means `low` EXOR the product of the input's literal and `high`.
#[derive(Clone, Copy, PartialEq, Eq, Hash)]
pub struct Node {
    pub input: u32,
    pub low: usize,
    pub high: usize,
}

/// What was asked of two places.
#[derive(Clone, Copy, PartialEq, Eq, Hash)]
pub struct Question {
    pub left: usize,
    pub right: usize,
}
