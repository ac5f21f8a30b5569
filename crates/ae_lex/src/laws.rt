//! What the lines of a text are in words.
ghost use Rattle.std.specs.Prelude.{◌≡◌, ℕ, List, All, length, map};
ghost use Rattle.ae_base.specs.Text.{text_of};
ghost use Rattle.ae_lex.specs.declared.text.Style.{Style};
ghost use Rattle.ae_lex.specs.Lines.{lines_of};
ghost use Rattle.ae_lex.specs.Words.{last_line, word_lines};
ghost use Rattle.ae_lex.specs.Lines.{cut_line};
ghost use Rattle.ae_lex.specs.Written.{numbered, IsPlainLine};

/// The words at the spans of a text's lines are the words of those lines, with their numbers, and `last` is the number of physical lines.
pub fn words_law()
    ensures words { (style : Style) (bytes : List ℕ) → map (cut_line bytes) (lines_of style bytes).list ≡ word_lines style bytes }
    ensures last { (style : Style) (bytes : List ℕ) → (lines_of style bytes).last ≡ last_line bytes }
{}

/// A text that is written line by line has these lines, numbered from 1, in both styles.
pub fn written_lines()
    ensures lines { (style : Style) (lines : List (List (List ℕ))) → All IsPlainLine lines → word_lines style (text_of lines) ≡ numbered 1 lines }
    ensures last { (lines : List (List (List ℕ))) → All IsPlainLine lines → last_line (text_of lines) ≡ length lines }
{}
