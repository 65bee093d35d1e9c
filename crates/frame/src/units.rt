// The unit checks of a frame.
ghost use Rattle.std.specs.Prelude.{◌≡◌, ◌<◌, length, map, IsTrue};
ghost use Rattle.std.specs.List.{range_with_len};
ghost use Rattle.frame.specs.Packet.{one_of_five};
ghost use Rattle.frame.specs.Units.{unit_check};

use crc::unit::UnitCheck;
use std::array;

// The check of a unit of one to five whole groups.
fn unit_check(bytes: &[u8], unit: usize) -> u8
    requires unit { unit < 8 }
    requires whole { IsTrue (one_of_five (length bytes.now)) }
    ensures { result ≡ unit_check bytes.now unit }
{
    let mut check = UnitCheck::new();
    // By the number of the group: its place in the frame says what counts, and numbered chunks would be no plainer.
    for g in 0..bytes.len() / 128 {
        let at = 128 * g + 16 * unit;
        let lead = if at == 0 { 1 } else { 0 };
        let trail = if at + 16 == bytes.len() { 14 } else { 0 };
        check.feed_zeros(lead);
        check.feed(&bytes[at + lead..at + 16 - trail]);
        check.feed_zeros(trail);
    }
    check.state()
}

// The checks of the eight units of one to five whole groups.
pub(crate) fn unit_checks(bytes: &[u8]) -> [u8; 8]
    requires whole { IsTrue (one_of_five (length bytes.now)) }
    ensures { result ≡ map (unit_check bytes.now) (range_with_len 0 8) }
{
    array::from_fn(|unit| unit_check(bytes, unit))
}
