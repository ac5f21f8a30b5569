//! Reads a text line by line.
ghost use Rattle.std.specs.Prelude.{◌≡◌, [], ◌∷◌, ◌++◌, option_map};
ghost use Rattle.std.specs.List.{before_first, find};
ghost use Rattle.ae_lex.specs.Reads.{ReadsAll, Takes, words_of};
ghost use Rattle.ae_lex.specs.Slices.{texts};

use crate::errors::{LineErr, TextErr};
use crate::slices::WordLine;
use std::alloc::Global;
use std::fmt::Display;

/// What a reader keeps of the lines so far.
pub trait Draft {
    ghost use Rattle.std.specs.Prelude.{◌≡◌, [], ◌∷◌, ◌++◌, ℕ, Bool, List};
    ghost use Rattle.ae_lex.specs.Heads.{Word};

    /// What may be wrong with a line.
    type Fault: Display + Copy;

    // these lines say what the draft keeps
    ghost says: { List (List Word) → Self → Type 0 };

    // what makes a line faulty after these lines
    ghost faults: { List (List Word) → List Word → List (Bool × Self.Fault) };

    // nothing is read from a line of these words on
    ghost ends: { List Word → Bool };

    /// Whether nothing is read from a line of these words on.
    fn ends(words: &[&[u8]]) -> bool
        ensures { result ≡ ends (texts words.now) };

    /// Reads the words of one more line. After an error the draft is of no further use.
    fn read(&mut self, alloc: Global, words: &[&[u8]]) -> Result<(), LineErr<Self::Fault>>
        ensures { (before : List (List Word)) → says before self.old → Takes (faults before (texts words.now)) (says (before ++ texts words.now ∷ []) self.new) result };
}

/// Reads the lines of a text up to the first that ends it, and answers the number of that one.
pub fn read_lines<D: Draft>(
    alloc: Global,
    lines: &[WordLine<'_>],
    draft: &mut D,
) -> Result<Option<u32>, TextErr<D::Fault>>
    requires { D.says [] draft.old }
    ensures { ReadsAll D.faults (before_first (λ line. D.ends line.words) lines.now) (option_map (λ line. line.number) (find (λ line. D.ends line.words) lines.now))
        (λ read. D.says (words_of read) draft.new) result }
{
    for line in lines {
        if D::ends(line.words()) {
            return Ok(Some(line.number()));
        }
        match draft.read(alloc, line.words()) {
            Ok(()) => {}
            Err(LineErr::Memory) => return Err(TextErr::Memory),
            Err(LineErr::Fault(what)) => {
                return Err(TextErr::At {
                    line: line.number(),
                    what,
                });
            }
        }
    }
    Ok(None)
}
