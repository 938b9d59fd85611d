ghost use Rattle.std.specs.Prelude.{◌≡◌, IfOk};
ghost use Rattle.command_words.specs.inside.Roots as reading;

use case_table::{Seq, Text};
use std::alloc::{AllocError, Global};

/// The most paths of a request.
const MOST_ROOTS: usize = 64;

/// The 1 to 64 paths that a word is, with `:` between them.
pub fn roots_in(alloc: Global, word: &str) -> Result<Option<Seq<Text>>, AllocError>
    ensures { IfOk result (λ found. found ≡ reading.roots_in word.now) }
{
    let mut roots = Vec::new(alloc);
    let mut rest = word;
    while let Some((root, behind)) = rest.split_once(':') {
        if !is_next(&roots, root) {
            return Ok(None);
        }
        roots.push(Text::copy(alloc, root)?)?;
        rest = behind;
    }
    if !is_next(&roots, rest) {
        return Ok(None);
    }
    roots.push(Text::copy(alloc, rest)?)?;
    Ok(Some(Seq::of(roots)))
}

/// Whether the piece is a path, and there is room for it.
fn is_next(roots: &[Text], piece: &str) -> bool
    ensures { result ≡ reading.is_next roots.now piece.now }
{
    !piece.is_empty() && roots.len() < MOST_ROOTS
}
