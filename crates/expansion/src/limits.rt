//! The limits of expansions.

/// An expansion has fewer lists than this, which is 2 to the 32.
pub const LISTS: u64 = 4_294_967_296;

/// The lists of an expansion have fewer terms in all than this, which is 2 to the 62.
pub const TERMS: u64 = 4_611_686_018_427_387_904;
