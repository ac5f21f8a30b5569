//! What lists of cubes mean, and that rewriting them ends.
ghost use Rattle.std.specs.Prelude.{◌≡◌, ◌≢◌, ◌↔◌, ◌⊎◌, ◌<◌, ◌≤◌, ℕ, Bool, false, List, [], ◌∷◌, length, All, AllPairs, None, Some, find};
ghost use Rattle.std.specs.List.Sorted.{IsPermutation, IsSorted};
ghost use Rattle.ae_base.specs.Cube.{Product, IsOver, IsProduct, distance, holds};
ghost use Rattle.ae_base.specs.Mask.{Set, differ};
ghost use Rattle.ae_base.specs.Text.{cmp_text};
ghost use Rattle.expansion.specs.Terms.{Terms};
ghost use Rattle.expansion.specs.Kept.{IsTerms};
ghost use Rattle.esop.specs.Esop.{esop_of, esop_value};
ghost use Rattle.esop.specs.Kept.{IsCubes, HasSameValue};
ghost use Rattle.esop.specs.Links.{links, merge};
ghost use Rattle.esop.specs.Order.{in_order};
ghost use Rattle.esop.specs.Rewriting.{next_list, pairs, rewrite_step, rewritten};
ghost use Rattle.esop.specs.Search.{IsFirstPair};
ghost use Rattle.esop.specs.Settled.{IsSettled};

/// The value of a list is the EXOR of its cubes: 0 where there is none, and one more cube changes it where that cube holds. A list that is
/// put in order is in order and has the same cubes. The cubes of an expansion's terms are an ESOP.
pub fn esop_law()
    ensures none { (x : Set) → esop_value [] x ≡ false }
    ensures more { (c : Product) (cs : List Product) (x : Set) → esop_value (c ∷ cs) x ≡ differ (holds c x) (esop_value cs x) }
    ensures order { (cs : List Product) → IsSorted cmp_text (in_order cs) }
    ensures cubes { (cs : List Product) → IsPermutation cs (in_order cs) }
    ensures terms { (e : Terms) → IsTerms e → IsCubes (esop_of e) }
{}

/// The EXOR of two cubes at distance 1 is the one cube that they are merged into, and each link of two cubes has their EXOR.
pub fn link_law()
    ensures merge { (c d : Product) (x : Set) → IsProduct c → IsProduct d → distance c d ≡ 1 → holds (merge c d) x ≡ differ (holds c x) (holds d x) }
    ensures links { (c d : Product) (x : Set) → IsProduct c → IsProduct d → All (λ l. differ (holds l.first x) (holds l.second x) ≡ differ (holds c x) (holds d x)) (links c d) }
{}

/// What is found first among the pairs of places is the first one that passes in lexicographic order, and nothing is found exactly where
/// none passes.
pub fn pairs_law()
    ensures first { (test : ℕ × ℕ → Bool) (n : ℕ) (p : ℕ × ℕ) → (find test (pairs n) ≡ Some p) ↔ IsFirstPair test n p }
    ensures none { (test : ℕ × ℕ → Bool) (n : ℕ) → (find test (pairs n) ≡ None) ↔ ((i j : ℕ) → i < j → j < n → test (i, j) ≡ false) }
{}

/// A list is settled exactly where no step applies, and then a step keeps it. A step keeps the value of an ordered list and adds no cube.
/// Of two steps on a list that is not settled at least one removes a cube. A rewritten list is settled. A settled list has no cube twice.
pub fn rewriting_law()
    ensures settled { (cs : List Product) → IsSettled cs ↔ (next_list cs ≡ None) }
    ensures stays { (cs : List Product) → IsSettled cs → rewrite_step cs ≡ cs }
    ensures value { (n : ℕ) (cs : List Product) → All (IsOver n) cs → IsSorted cmp_text cs → HasSameValue cs (rewrite_step cs) }
    ensures count { (n : ℕ) (cs : List Product) → All (IsOver n) cs → IsSorted cmp_text cs → length (rewrite_step cs) ≤ length cs }
    ensures fewer { (cs : List Product) → ¬ IsSettled cs → (length (rewrite_step cs) < length cs) ⊎ (length (rewrite_step (rewrite_step cs)) < length cs) }
    ensures ends { (cs : List Product) → IsSettled (rewritten cs) }
    ensures once { (cs : List Product) → IsSettled cs → AllPairs (λ c d. c ≢ d) cs }
{}
