//! The numbers of what was carried out.

/// How many cases and runs there were, and how many of the cases differ. Each number stops at its last value.
#[derive(Clone, Copy)]
pub struct Numbers {
    pub cases: u64,
    pub runs: u64,
    /// A line that is not understood counts as a case that differs.
    pub differing: u64,
}

impl Numbers {
    /// Nothing was carried out.
    pub const NONE: Numbers = Numbers {
        cases: 0,
        runs: 0,
        differing: 0,
    };

    /// A line was not understood.
    pub const LINE: Numbers = Numbers {
        cases: 0,
        runs: 0,
        differing: 1,
    };

    /// Those of a case.
    pub fn of_case(runs: u64, differs: bool) -> Numbers {
        Numbers {
            cases: 1,
            runs,
            differing: if differs { 1 } else { 0 },
        }
    }

    /// These and the others together.
    pub fn with(self, others: Numbers) -> Numbers {
        Numbers {
            cases: self.cases.saturating_add(others.cases),
            runs: self.runs.saturating_add(others.runs),
            differing: self.differing.saturating_add(others.differing),
        }
    }
}
