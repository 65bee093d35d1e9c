// Bytes from hex digits, in either case.
ghost use Rattle.std.specs.Prelude.{◌≡◌, IfOk, vec_items};
ghost use Rattle.std.specs.Option.{option_map};
ghost use Rattle.accbox.specs.Hex.{hex_digit, hex_byte, hex_bytes};

use crate::read;
use std::alloc::{AllocError, Global};

fn digit(letter: u8) -> Option<u8>
    ensures { result ≡ hex_digit letter }
{
    char::from(letter).to_digit(16).map(|digit| digit as u8)
}

// The byte that two digits write, and no more.
fn pair(digits: &[u8]) -> Option<u8>
    ensures { result ≡ hex_byte digits.now }
{
    match digits {
        [high, low] => Some(16 * digit(*high)? + digit(*low)?),
        _ => None,
    }
}

pub(crate) fn read_byte(word: &str) -> Option<u8>
    ensures { result ≡ hex_byte word.now }
{
    pair(word.as_bytes())
}

// The bytes that a word of pairs of digits writes.
pub(crate) fn read_bytes(heap: Global, word: &str) -> Result<Option<Vec<u8>>, AllocError>
    ensures { IfOk result (λ o. option_map vec_items o ≡ hex_bytes word.now) }
{
    read::all(heap, word.len() / 2, word.as_bytes().chunks(2).map(pair))
}
