//! What the expansion of a truth function means.
ghost use Rattle.std.specs.Prelude.{◌≡◌, ℕ, ◌<◌, ◌≤◌, ◌^◌, Bool, true, List, length, count_by, All};
ghost use Rattle.std.specs.List.{list_any, range_with_len};
ghost use Rattle.ae_base.specs.Mask.{Set, has, first, inside};
ghost use Rattle.ae_base.specs.Cube.{Signs};
ghost use Rattle.ae_base.specs.Terms.{IsPoint, IsInOrder, value};
ghost use Rattle.fn_store.specs.Davio.{IsExpansion, coefficient};
ghost use Rattle.fn_store.specs.Uses.{DependsOn};
ghost use Rattle.fn_store.specs.Functions.{Functions, Shows, Keeps, AgreeAt};
ghost use Rattle.fn_store.specs.declared.store.FnRef.{FnRef};

/// Each truth function has one expansion at each polarity. Its terms are over the inputs. The EXOR of the products of its terms is the
/// function, and no other list in term order without repeats has that EXOR. The function depends on exactly the inputs that its terms
/// hold. It has as many terms as there are sets of inputs (written as the numbers below 2 to the n) whose coefficient is 1, and so at most
/// 2 to the n.
pub fn expansion_law()
    ensures inside { (p : Signs) (f : Set → Bool) (ts : List Set) → IsExpansion p f ts → All (λ t. inside t (first p.n) ≡ true) ts }
    ensures meaning { (p : Signs) (f : Set → Bool) (ts : List Set) → IsExpansion p f ts → (x : Set) → IsPoint p.n x → value p ts x ≡ f x }
    ensures only { (p : Signs) (f : Set → Bool) (ts : List Set) → IsInOrder ts → All (λ t. inside t (first p.n) ≡ true) ts
        → ((x : Set) → IsPoint p.n x → value p ts x ≡ f x) → IsExpansion p f ts }
    ensures one { (p : Signs) (f : Set → Bool) (ts us : List Set) → IsExpansion p f ts → IsExpansion p f us → ts ≡ us }
    ensures exists { (p : Signs) (f : Set → Bool) → ((ts : List Set) × IsExpansion p f ts) }
    ensures count { (p : Signs) (f : Set → Bool) (ts : List Set) → IsExpansion p f ts → length ts ≡ count_by (coefficient p f) (range_with_len 0 (2 ^ p.n)) }
    ensures few { (p : Signs) (f : Set → Bool) (ts : List Set) → IsExpansion p f ts → length ts ≤ 2 ^ p.n }
    ensures used { (p : Signs) (f : Set → Bool) (ts : List Set) (j : ℕ) → IsExpansion p f ts → j < p.n → list_any (λ t. has t j) ts ≡ true → DependsOn p.n f j }
    ensures unused { (p : Signs) (f : Set → Bool) (ts : List Set) (j : ℕ) → IsExpansion p f ts → j < p.n → DependsOn p.n f j → list_any (λ t. has t j) ts ≡ true }
{}

/// What does not change is kept, and what is kept through two steps is kept. In a store that is kept a reference shows what it did. A
/// reference that shows a function shows each function that agrees with it at every point, and no other.
pub fn store_laws()
    ensures itself { (s : Functions) → Keeps s s }
    ensures through { (s t u : Functions) → Keeps s t → Keeps t u → Keeps s u }
    ensures kept { (s t : Functions) → Keeps s t → (r : FnRef) (f : Set → Bool) → Shows s r f → Shows t r f }
    ensures agree { (s : Functions) (r : FnRef) (f g : Set → Bool) → AgreeAt s.polarity.n f g → Shows s r f → Shows s r g }
    ensures one { (s : Functions) (r : FnRef) (f g : Set → Bool) → Shows s r f → Shows s r g → AgreeAt s.polarity.n f g }
{}
