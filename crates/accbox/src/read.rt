// Reading a word part by part.
ghost use Rattle.std.specs.Prelude.{◌≡◌, List, Option, IfOk, vec_items};
ghost use Rattle.std.specs.Iterator.{AlwaysYields, IsFinite};
ghost use Rattle.std.specs.Option.{option_map};
ghost use Rattle.accbox.specs.Read.{all_read};

use std::alloc::{AllocError, Global};

// What the parts read as; none if one of them could not be read. Not `collect`: into an option it does not say where it fails.
// Room for so many parts is taken at once: a list that grows on the way takes more memory.
pub(crate) fn all<T: Drop, I: Iterator<Item = Option<T>>>(
    heap: Global,
    room: usize,
    parts: I,
) -> Result<Option<Vec<T>>, AllocError>
    requires can { I.can_next parts }
    requires finite { IsFinite (I.remaining parts) }
    ensures { (read : List (Option T)) → AlwaysYields I.next_gives (λ x. x) parts read → IfOk result (λ o. option_map vec_items o ≡ all_read read) }
{
    let mut all = Vec::with_capacity(heap, room)?;
    for part in parts {
        let Some(part) = part else {
            return Ok(None);
        };
        all.push(part)?;
    }
    Ok(Some(all))
}
