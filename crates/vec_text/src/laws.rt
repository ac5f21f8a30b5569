//! What holds of the file that a text says, that a written text says its file again, and how lines are written.
//!
//! The functions do nothing: each one's contract is the laws, and a caller has them after the call.
ghost use Rattle.std.specs.Prelude.{◌≡◌, ◌++◌, ◌∷◌, [], ℕ, List, Ok};
ghost use Rattle.std.specs.List.{flat_map};
ghost use Rattle.ae_base.specs.Text.{text_of};
ghost use Rattle.vec_text.specs.Says.{vec_says};
ghost use Rattle.vec_text.specs.VectorFile.{VectorFile, IsValidVectorFile, vector_text};

use ae_lex::written_lines;

/// A word, words after it each after a blank, and byte 10 are the text of a line; texts of lines one after the other are the text of all.
pub fn line_law()
    ensures line { (start word now further new : List ℕ) (words : List (List ℕ)) → now ≡ start ++ word → further ≡ now ++ flat_map (λ v. 32 ∷ v) words → new ≡ further ++ 10 ∷ []
        → new ≡ start ++ text_of ((word ∷ words) ∷ []) }
    ensures more { (start now new : List ℕ) (first later : List (List (List ℕ))) → now ≡ start ++ text_of first → new ≡ now ++ text_of later → new ≡ start ++ text_of (first ++ later) }
{}

/// What a text says, where it says a file, is valid.
pub fn said_law()
    ensures { (text : List ℕ) (file : VectorFile) → vec_says text ≡ Ok file → IsValidVectorFile file }
{}

/// The text of a valid file says that file.
pub fn said_again()
    ensures { (file : VectorFile) → IsValidVectorFile file → vec_says (vector_text file) ≡ Ok file }
{
    written_lines();
}
