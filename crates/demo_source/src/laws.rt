//! What holds of the demo's text, whatever the seed.
ghost use Rattle.std.specs.Prelude.{◌≡◌, ℕ, ◌<◌, ◌≤◌, Ok, length};
ghost use Rattle.ae_base.specs.Cube.{Signs};
ghost use Rattle.ae_cover.specs.Cover.{Table, source_of};
ghost use Rattle.expansion.specs.Functions.{AreExpansions};
ghost use Rattle.expansion.specs.Terms.{Terms, PassesAt, cost};
ghost use Rattle.pla_read.specs.Pla.{pla_says};
ghost use Rattle.ae_base.specs.declared.form.Form.{Form};
ghost use Rattle.demo_source.specs.Demo.{demo_text};
ghost use Rattle.demo_source.specs.Says.{SaysCover, most_terms};

/// The text is short, and says a cover. At each polarity the expansions of that cover have few terms, so at no output do they pass a limit
/// that is as large.
pub fn demo_law()
    ensures short { (seed : ℕ) (form : Form) → length (demo_text seed form) < 2000 }
    ensures said { (seed : ℕ) (form : Form) → SaysCover seed form }
    ensures few { (seed : ℕ) (form : Form) (table : Table) (p : Signs) (e : Terms) → pla_says (demo_text seed form) ≡ Ok table → AreExpansions (source_of table) p e → cost e ≤ most_terms form }
    ensures none_past { (seed : ℕ) (form : Form) (table : Table) (p : Signs) (e : Terms) (limit output : ℕ) → pla_says (demo_text seed form) ≡ Ok table → AreExpansions (source_of table) p e
        → most_terms form ≤ limit → PassesAt limit e.outs output → ⊥ }
{
    ae_lex::written_lines();
    fn_store::expansion_law();
}
