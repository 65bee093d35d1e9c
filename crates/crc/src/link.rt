// The link check, which a reply carries.
ghost use Rattle.std.specs.Prelude.{◌≡◌};
ghost use Rattle.crc.specs.Check.{link_check, OneByteShows};

use crate::polynomial::LINK;

// The sixteen-bit check of any bytes. No other byte in the place of one of them gives the same check.
pub fn link_check(bytes: &[u8]) -> u16
    ensures value { result ≡ link_check bytes.now }
    ensures shows { OneByteShows 16 0x8005 0 bytes.now }
{
    LINK.run(0, bytes)
}
