//! What is asked for.
ghost use Rattle.std.specs.Prelude.{◌≡◌, ◌≤◌};
ghost use Rattle.ae_base.specs.declared.limits.TheConstants.{NET_LINES};
ghost use Rattle.synth_core.specs.Asked as spec;

use ae_base::{Form, Polarity};

/// The kind of a source's text.
#[derive(Clone, Copy, Debug, PartialEq, Eq)]
pub enum SourceKind {
    /// An espresso PLA text.
    Pla,
    /// A combinational BLIF text, with external don't cares or without.
    Blif,
}

/// Which polarity the expansions have.
#[derive(Clone, Copy, Debug, PartialEq, Eq)]
pub enum Choice {
    /// Each input has its plain literal.
    Positive,
    /// One of few terms, which a search finds, from the plain literals and from what advisors propose.
    Search,
    /// This one. Its number of inputs is that of the source, or the source is refused.
    Given(Polarity),
}

/// What a synthesis is asked for.
#[derive(Clone, Copy, Debug, PartialEq, Eq)]
pub struct Settings {
    pub kind: SourceKind,
    pub form: Form,
    pub polarity: Choice,
}

/// The polarity of `n` inputs at which terms are counted: the one that is handed, else that of all plain literals.
pub fn polarity_of(choice: Choice, n: u32) -> Polarity
    requires { n ≤ NET_LINES }
    ensures { result ≡ spec.polarity_of choice n }
{
    match choice {
        Choice::Positive | Choice::Search => Polarity::all_plain(n),
        Choice::Given(polarity) => polarity,
    }
}
