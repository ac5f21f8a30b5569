//! What holds of every cover, in words of points: of its first clash, and of where its outputs are On.
ghost use Rattle.std.specs.Prelude.{◌≡◌, ℕ, Some, None, is_some};
ghost use Rattle.ae_base.specs.Mask.{Set};
ghost use Rattle.ae_base.specs.Source.{on_set};
ghost use Rattle.ae_cover.specs.Cover.{Table, IsCover, is_one, some_row, source_of};
ghost use Rattle.ae_cover.specs.Clash.{IsClash, has_clash};
ghost use Rattle.ae_cover.specs.FirstClash.{IsBefore, first_clash};
ghost use Rattle.ae_cover.specs.declared.parts.Clash.{Clash};
ghost use Rattle.ae_cover.specs.declared.parts.Kind.TheVariants.{F, Fd};

/// The first clash of a cover is a clash, and none is before it. Where there is no first clash, there is none at all. Covers of the kinds `F` and `Fd` have none.
/// `has_clash` tells of a cover whether there is one.
pub fn clash_laws()
    ensures found { (t : Table) (c : Clash) → IsCover t → first_clash t ≡ Some c → IsClash t c }
    ensures first { (t : Table) (c d : Clash) → first_clash t ≡ Some c → IsClash t d → IsBefore d c → ⊥ }
    ensures none { (t : Table) (c : Clash) → first_clash t ≡ None → IsClash t c → ⊥ }
    ensures test { (t : Table) → IsCover t → has_clash t ≡ is_some (first_clash t) }
    ensures f { (t : Table) → t.kind ≡ F → first_clash t ≡ None }
    ensures fd { (t : Table) → t.kind ≡ Fd → first_clash t ≡ None }
{}

/// An output of a cover is On at a point exactly where some row with `One` for it holds the point.
pub fn on_law()
    ensures { (t : Table) (o : ℕ) (x : Set) → on_set (source_of t) o x ≡ some_row is_one t.rows o x }
{}
