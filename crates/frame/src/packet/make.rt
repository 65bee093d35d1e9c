// Making a packet, and its bytes.
ghost use Rattle.std.specs.Prelude.{◌≡◌, true, false, not, ◌||◌, ◌==◌, length, replicate, Some, None, position, MatchResult};
ghost use Rattle.std.specs.List.{enumerate_from};
ghost use Rattle.frame.specs.Packet.{one_of_five, packet_fault, IsPacket};
ghost use Rattle.frame.specs.Reserved.{reserved, cleared};
ghost use Rattle.terms.specs.declared.fault.PacketFault.TheVariants.{Length};

use crate::packet::Packet;
use crate::room::{clear_reserved, in_room, is_reserved, is_whole};
use terms::fault::PacketFault;

// Whether a byte may stand at a place of a packet of so many bytes: every byte where it is not reserved, and else zero.
fn is_clear(size: usize, place: usize, byte: u8) -> bool
    ensures { result ≡ (not (reserved size place) || byte == 0) }
{
    !is_reserved(size, place) || byte == 0
}

// The lowest reserved place that is not zero.
fn lowest_reserved(bytes: &[u8]) -> Option<usize>
    ensures { result ≡ position (λ p. not (not (reserved (length bytes.now) p.0) || p.1 == 0)) (enumerate_from 0 bytes.now) }
{
    let size = bytes.len();
    bytes
        .iter()
        .enumerate()
        .position(|(place, byte)| !is_clear(size, place, *byte))
}

impl Packet {
    pub fn new(bytes: &[u8]) -> Result<Packet, PacketFault>
        ensures { MatchResult result (λ p. (packet_fault bytes.now ≡ None) × (p ≡ bytes.now)) (λ f. packet_fault bytes.now ≡ Some f) }
    {
        if !is_whole(bytes.len()) {
            return Err(PacketFault::Length);
        }
        if let Some(place) = lowest_reserved(bytes) {
            return Err(PacketFault::Reserved(place));
        }
        Ok(Packet {
            groups: bytes.len() / 128,
            bytes: in_room(0, bytes),
        })
    }

    // The packet of so many bytes that has one value at every place that is not reserved.
    pub fn filled(size: usize, fill: u8) -> Result<Packet, PacketFault>
        ensures { MatchResult result (λ p. (one_of_five size ≡ true) × (p ≡ cleared (replicate size fill))) (λ f. (one_of_five size ≡ false) × (f ≡ Length)) }
    {
        if !is_whole(size) {
            return Err(PacketFault::Length);
        }
        let mut bytes = [fill; 640];
        clear_reserved(&mut bytes[..size]);
        Ok(Packet {
            groups: size / 128,
            bytes: in_room(0, &bytes[..size]),
        })
    }

    // As `Frame::bytes`: one function for both would be no plainer.
    pub fn bytes(&self) -> &[u8]
        ensures bytes { result.now ≡ self.now }
        ensures packet { IsPacket self.now }
    {
        &self.bytes[0..128 * self.groups]
    }
}
