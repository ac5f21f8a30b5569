//! Stores of truth functions.
ghost use Rattle.std.specs.Prelude.{◌≡◌, ◌↔◌, ◌<◌, Bool, true, false, not, ◌&&◌, length, IfOk, IsErrOf, MatchOption};
ghost use Rattle.ae_base.specs.Mask.{Set, differ};
ghost use Rattle.ae_base.specs.Terms as spec;
ghost use Rattle.fn_store.specs.declared.store.TermsErr.TheVariants as terms_err;
ghost use Rattle.fn_store.specs.Functions.{Functions, IsLive, Shows, Keeps, AgreeAt, IsLeastPoint, AllShow};

use ae_base::{Memory, Point, Polarity, Term};
use std::alloc::AllocError;
use thiserror::Error;

/// The name of a function of one store.
#[derive(Clone, Copy, Debug, PartialEq, Eq)]
pub struct FnRef {
    /// The number that the store gave the function.
    pub at: u64,
}

/// Why a store gave no terms.
#[derive(Clone, Copy, Debug, PartialEq, Eq, Drop, Error)]
pub enum TermsErr {
    /// There are more terms than were asked for.
    #[error("more terms than were asked for")]
    More,
    /// Memory is wanting.
    #[error("want of memory")]
    Memory,
}

impl From<AllocError> for TermsErr {
    ghost from_gives = { λ _ r. r ≡ terms_err.Memory };

    fn from(_: AllocError) -> Self {
        TermsErr::Memory
    }
}

/// Functions of a fixed number of inputs, each named by a reference, with their expansions at one polarity. The references of a call
/// are live in the store, and so is each one that it answers. A live reference stays live and keeps its function, also where a call
/// answers `Memory`. There is no limit on the number of functions.
pub trait FnStore {
    /// The polarity, which references are live, and the expansion of each one's function.
    ghost functions: { Self → Functions };

    /// The polarity of all expansions. Each live reference has a function, which is the value of its terms. It takes no memory.
    fn polarity(&self) -> Polarity
        ensures polarity { result ≡ (functions self.now).polarity }
        ensures all { AllShow (functions self.now) };

    /// The function that is 0 everywhere. It takes no memory.
    fn zero(&self) -> FnRef
        ensures { Shows (functions self.now) result (λ x. false) };

    /// The function that is 1 everywhere. It takes no memory.
    fn one(&self) -> FnRef
        ensures { Shows (functions self.now) result (λ x. true) };

    /// The literal of an input: the input where the polarity has it plain, else its complement. Where memory runs out, `Memory`.
    fn literal(&mut self, j: u32) -> Result<FnRef, Memory>
        requires { j < (functions self.old).polarity.n }
        ensures shows { IfOk result (λ r. Shows (functions self.new) r (spec.literal (functions self.old).polarity j)) }
        ensures keeps { Keeps (functions self.old) (functions self.new) };

    /// The EXOR of two functions. Where memory runs out, `Memory`.
    fn xor(&mut self, a: FnRef, b: FnRef) -> Result<FnRef, Memory>
        requires a { IsLive (functions self.old) a }
        requires b { IsLive (functions self.old) b }
        ensures shows { IfOk result (λ r. (f g : Set → Bool) → Shows (functions self.old) a f → Shows (functions self.old) b g → Shows (functions self.new) r (λ x. differ (f x) (g x))) }
        ensures live { IfOk result (IsLive (functions self.new)) }
        ensures keeps { Keeps (functions self.old) (functions self.new) };

    /// The AND of two functions. Where memory runs out, `Memory`.
    fn and(&mut self, a: FnRef, b: FnRef) -> Result<FnRef, Memory>
        requires a { IsLive (functions self.old) a }
        requires b { IsLive (functions self.old) b }
        ensures shows { IfOk result (λ r. (f g : Set → Bool) → Shows (functions self.old) a f → Shows (functions self.old) b g → Shows (functions self.new) r (λ x. f x && g x)) }
        ensures live { IfOk result (IsLive (functions self.new)) }
        ensures keeps { Keeps (functions self.old) (functions self.new) };

    /// The complement of a function. Where memory runs out, `Memory`.
    fn not(&mut self, a: FnRef) -> Result<FnRef, Memory>
        requires { IsLive (functions self.old) a }
        ensures shows { IfOk result (λ r. (f : Set → Bool) → Shows (functions self.old) a f → Shows (functions self.new) r (λ x. not (f x))) }
        ensures live { IfOk result (IsLive (functions self.new)) }
        ensures keeps { Keeps (functions self.old) (functions self.new) };

    /// Whether the functions are equal at every point. It takes no memory.
    fn same(&self, a: FnRef, b: FnRef) -> bool
        requires a { IsLive (functions self.now) a }
        requires b { IsLive (functions self.now) b }
        ensures { (f g : Set → Bool) → Shows (functions self.now) a f → Shows (functions self.now) b g → (result ≡ true) ↔ AgreeAt (functions self.now).polarity.n f g };

    /// The expansion in term order. `More` comes exactly where it has more than `k` terms; else, where memory runs out, `Memory`.
    fn terms_upto(&self, a: FnRef, k: u64) -> Result<Vec<Term>, TermsErr>
        requires { IsLive (functions self.now) a }
        ensures terms { IfOk result (λ ts. ts.items ≡ (functions self.now).terms a.at) }
        ensures more { IsErrOf result TermsErr.More ↔ k < length ((functions self.now).terms a.at) };

    /// The least point at which the function is 1: points are compared by their literals, input 0 first, literal 0 before literal 1.
    /// `None` comes exactly where the function is 0 at every point. It takes no memory.
    fn point(&self, a: FnRef) -> Option<Point>
        requires { IsLive (functions self.now) a }
        ensures { (f : Set → Bool) → Shows (functions self.now) a f → MatchOption result (AgreeAt (functions self.now).polarity.n f (λ x. false)) (IsLeastPoint (functions self.now).polarity f) };
}
