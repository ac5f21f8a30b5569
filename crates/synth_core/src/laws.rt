//! What is made of a source's expansions.
ghost use Rattle.std.specs.Prelude.{◌≡◌, List};
ghost use Rattle.ae_base.specs.Mask.{Set};
ghost use Rattle.ae_base.specs.Source.{Source};
ghost use Rattle.ae_net.specs.Blif.{blif_text};
ghost use Rattle.ae_base.specs.Cube.{Signs, IsSigns};
ghost use Rattle.ae_net.specs.Names.{Names};
ghost use Rattle.ae_net.specs.Network.{Network};
ghost use Rattle.cascade.specs.Shows.{reddy_net};
ghost use Rattle.esop.specs.Esop.{Cubes};
ghost use Rattle.expansion.specs.Functions.{AreExpansions};
ghost use Rattle.expansion.specs.Terms.{Terms};
ghost use Rattle.vec_text.specs.declared.file.Idle.{Idle};
ghost use Rattle.ae_base.specs.declared.form.Form.TheVariants.{Reddy, Factored};
ghost use Rattle.vec_text.specs.VectorFile.{IsValidVectorFile, vector_text};
ghost use Rattle.synth_core.specs.declared.made.Summary.{Summary};
ghost use Rattle.synth_core.specs.Made.{AreNumbers, IsSynthesised, names_of};
ghost use Rattle.synth_core.specs.Steps.{AreReady, AreRewritten, AreTests, IsFactoredNet, factored_file, reddy_file};

use ae_net::{lead_law, one_run};
use blif_read::{said_again, said_law};
use cascade::reddy_law;
use expansion::even_law;
use fn_store::expansion_law;
use input_tests::input_law;
use vec_text::said_again as vectors_said_again;

/// Of the names and the expansions of a source, within the limit on terms: the file over the vectors of the cascade keeps the rules of a
/// vector file, and the texts of the Reddy network and of that file, with their numbers, are what a synthesis makes of the source. Here,
/// and here alone, what the crates of the cascade say of outputs as the code works them out becomes what a reader is told of runs.
pub fn synthesis_law()
    ensures valid { (names : Names) (e : Terms) → AreReady names e → IsValidVectorFile (reddy_file names e) }
    ensures made { (s : Source) (e : Terms) (summary : Summary) → AreReady (names_of s) e → AreExpansions s e.polarity e
        → let net = reddy_net (names_of s) e in
        let file = reddy_file (names_of s) e in
        AreNumbers s e net file summary
        → IsSynthesised Reddy e.polarity s e (record { net_text = blif_text net; vec_text = vector_text file; summary = summary }) }
{
    one_run();
    lead_law();
    said_law();
    said_again();
    vectors_said_again();
    reddy_law();
    even_law();
    expansion_law();
    input_law();
}

/// The same of the cubes that are rewritten from a source's expansions, and of their factored network: the file of the cubes keeps the rules
/// of a vector file, and the texts of the network and of that file are what a synthesis makes of the source in factored form.
pub fn factored_synthesis_law()
    ensures valid { (names : Names) (p : Signs) (cubes : Cubes) (n : Network) (points : List Set) (unchanged : List Idle) → IsSigns p → p.n ≡ cubes.n → IsFactoredNet names cubes n → AreTests n p points unchanged
        → IsValidVectorFile (factored_file names p cubes n points unchanged) }
    ensures made { (s : Source) (e : Terms) (cubes : Cubes) (n : Network) (points : List Set) (unchanged : List Idle) (summary : Summary)
        → AreExpansions s e.polarity e → IsSigns e.polarity → AreRewritten e cubes → IsFactoredNet (names_of s) cubes n → AreTests n e.polarity points unchanged
        → let file = factored_file (names_of s) e.polarity cubes n points unchanged in
        AreNumbers s e n file summary
        → IsSynthesised Factored e.polarity s e (record { net_text = blif_text n; vec_text = vector_text file; summary = summary }) }
{
    lead_law();
    said_law();
    said_again();
    vectors_said_again();
    expansion_law();
    one_run();
}
