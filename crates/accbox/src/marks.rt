// Marks as digits, one for each character.
ghost use Rattle.std.specs.Prelude.{◌≡◌, IfOk, vec_items};
ghost use Rattle.std.specs.Option.{option_map};
ghost use Rattle.accbox.specs.Marks.{digit_mark, one_mark, all_marks};

use crate::read;
use std::alloc::{AllocError, Global};
use terms::mark::Mark;

fn digit(letter: u8) -> Option<Mark>
    ensures { result ≡ digit_mark letter }
{
    Mark::try_from(letter.checked_sub(b'0')?).ok()
}

pub(crate) fn read_mark(word: &str) -> Option<Mark>
    ensures { result ≡ one_mark word.now }
{
    match word.as_bytes() {
        [letter] => digit(*letter),
        _ => None,
    }
}

pub(crate) fn read_marks(heap: Global, word: &str) -> Result<Option<Vec<Mark>>, AllocError>
    ensures { IfOk result (λ o. option_map vec_items o ≡ all_marks word.now) }
{
    read::all(heap, word.len(), word.bytes().map(digit))
}
