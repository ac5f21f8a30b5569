//! Which inputs of a source are used, which are even, and how a store's functions give a source's expansions.
ghost use Rattle.std.specs.Prelude.{◌≡◌, ◌↔◌, ◌&&◌, ℕ, Bool, true, not, Some, List, length, slice_get, All};
ghost use Rattle.ae_base.specs.Mask.{Set, has};
ghost use Rattle.ae_base.specs.Cube.{Signs};
ghost use Rattle.ae_base.specs.Source.{Source, IsUsed, on_set};
ghost use Rattle.fn_store.specs.Davio.{IsExpansion};
ghost use Rattle.fn_store.specs.Functions.{Functions, IsLive, Shows};
ghost use Rattle.fn_store.specs.declared.store.FnRef.{FnRef};
ghost use Rattle.expansion.specs.Counts.{is_odd};
ghost use Rattle.expansion.specs.Even.{AreEven, even_inputs};
ghost use Rattle.expansion.specs.Functions.{AreExpansions};
ghost use Rattle.expansion.specs.Stores.{expanded};
ghost use Rattle.expansion.specs.Terms.{Terms, used_inputs};
ghost use Rattle.expansion.specs.Kept.{IsTerms};

/// The inputs that a source uses are those that some term holds. An input is even by a flip of the source exactly where it is by a flip of
/// its expansions. Even by a flip is even by a count: flipping a used input where all literals are 1 changes no output exactly where every
/// expansion holds the input an even number of times.
pub fn even_law()
    ensures used { (s : Source) (p : Signs) (e : Terms) → AreExpansions s p e → (j : ℕ) → (has (used_inputs e) j ≡ true) ↔ IsUsed s j }
    ensures even { (s : Source) (p : Signs) (e : Terms) → AreExpansions s p e → AreEven s p (even_inputs e) }
    ensures counted { (e : Terms) → IsTerms e → (j : ℕ) → has (even_inputs e) j ≡ (has (used_inputs e) j && not (is_odd e j)) }
{
    fn_store::expansion_law();
}

/// Each list of `expanded` is the expansion of each function that its reference shows. So where the references show what a source
/// specifies for its outputs, they are live, and the lists are the expansions of the source.
pub fn expanded_law()
    ensures each { (s : Functions) (refs : List FnRef) (o : ℕ) (r : FnRef) (ts : List Set) (f : Set → Bool) → slice_get refs o ≡ Some r → slice_get (expanded s refs).outs o ≡ Some ts
        → Shows s r f → IsExpansion s.polarity f ts }
    ensures live { (source : Source) (s : Functions) (refs : List FnRef) → ((o : ℕ) (r : FnRef) → slice_get refs o ≡ Some r → Shows s r (on_set source o)) → All (IsLive s) refs }
    ensures source { (source : Source) (s : Functions) (refs : List FnRef) → s.polarity.n ≡ length source.inputs → length refs ≡ length source.outputs
        → ((o : ℕ) (r : FnRef) → slice_get refs o ≡ Some r → Shows s r (on_set source o)) → AreExpansions source s.polarity (expanded s refs) }
{}
