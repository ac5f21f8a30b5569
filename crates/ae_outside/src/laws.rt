//! What is held after a name is written, and what a sink took, piece after piece.
//!
//! The function does nothing: its contract is the laws, and a caller has them after the call.
ghost use Rattle.std.specs.Prelude.{◌≡◌, ◌≢◌, ◌++◌, ℕ, List, Option, Some, IfSome};
ghost use Rattle.std.specs.FinMap.{get};
ghost use Rattle.ae_outside.specs.Files.{Shelf, written, added};

/// A name that was written holds the bytes, and each other name what it held. Bytes that a sink took one after the other are taken as one
/// text.
pub fn file_laws()
    ensures holds { (held : Option Shelf) (name bytes : List ℕ) → IfSome (written held name bytes) (λ m. get m name ≡ Some bytes) }
    ensures others { (held : Option Shelf) (name q bytes wanted : List ℕ) → q ≢ name → IfSome held (λ m. get m q ≡ Some wanted) → IfSome (written held name bytes) (λ m. get m q ≡ Some wanted) }
    ensures joined { (taken : Option (List ℕ)) (xs ys : List ℕ) → added (added taken xs) ys ≡ added taken (xs ++ ys) }
{}
