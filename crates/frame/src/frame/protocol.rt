// The protocol frame: a packet under an ID.
ghost use Rattle.std.specs.Prelude.{◌≡◌, ◌-◌, ◌≤◌, ◌++◌, ◌==◌, ◌<◌, not, length, take, replicate, position, IfSome, Ok};
ghost use Rattle.std.specs.List.{zip};
ghost use Rattle.frame.specs.Form.{protocol_allows, sealed};
ghost use Rattle.frame.specs.Packet.{IsPacket};
ghost use Rattle.frame.specs.Reading.{reading, reading_as, units_checked};
ghost use Rattle.frame.specs.Unpacking.{Unpacks};
ghost use Rattle.frame.specs.declared.frame.Kind.TheVariants.{Protocol as ProtocolKind};
ghost use Rattle.terms.specs.declared.content.Content.TheVariants.{Packet as PacketContent};

use crate::frame::form::END;
use crate::frame::{Frame, Kind};
use crate::packet::Packet;
use crate::room::in_room;
use crate::units::unit_checks;
use terms::content::Content;
use terms::fault::FrameFault;

const START: u8 = 0xFB;

// Whether a byte may stand at a place of a protocol frame of so many bytes.
#[tactic(auto, unfolding(crate::specs::Form::protocol_allows))]
pub(super) fn allows_byte(size: usize, place: usize, byte: u8) -> bool
    ensures { result ≡ protocol_allows size place byte }
{
    match place {
        0 => byte == START,
        _ if size.saturating_sub(6) <= place => byte == END,
        _ => true,
    }
}

// The lowest place at which the bytes are not those that were expected.
fn lowest_difference(bytes: &[u8], expected: &[u8]) -> Option<usize>
    ensures lowest { result ≡ position (λ p. not (p.0 == p.1)) (zip bytes.now expected.now) }
    ensures within { IfSome result (λ i. i < length expected.now) }
{
    bytes.iter().zip(expected).position(|(b, e)| b != e)
}

// Writes the checks and the end into the last fourteen places.
fn put_trailer(bytes: &mut [u8], checks: &[u8; 8])
    requires { 14 ≤ length bytes.old }
    ensures { bytes.new ≡ take (length bytes.old - 14) bytes.old ++ checks.now ++ replicate 6 0xFD }
{
    let at = bytes.len() - 14;
    bytes[at..at + 8].copy_from_slice(checks);
    bytes[at + 8..].fill(END);
}

impl Frame {
    // The frame of a packet under an ID. Reading it gives the ID and the packet's length, and unpacking it the packet.
    pub fn seal(packet: &Packet, id: u8) -> Frame
        ensures made { result ≡ sealed id packet.now }
        ensures reads { reading result ≡ Ok (PacketContent id (length packet.now)) }
        ensures unpacks { Unpacks result id packet.now }
        ensures packet { IsPacket packet.now }
    {
        let size = packet.bytes().len();
        let mut room = in_room(0, packet.bytes());
        let bytes = &mut room[..size];
        bytes[1] = id;
        let checks = unit_checks(bytes);
        bytes[0] = START;
        put_trailer(bytes, &checks);
        Frame {
            groups: size / 128,
            bytes: room,
            marks: Kind::Protocol.marks(size / 16),
        }
    }

    fn check_units(&self) -> Result<(), FrameFault>
        ensures { result ≡ units_checked self.now }
    {
        let bytes = self.bytes();
        let first = bytes.len() - 14;
        lowest_difference(&bytes[first..], &unit_checks(bytes)).map_or(
            Ok(()),
            |unit| Err(FrameFault::Check(first + unit)),
        )
    }

    pub(super) fn read_protocol(&self) -> Result<Content, FrameFault>
        ensures { result ≡ reading_as ProtocolKind self.now }
    {
        self.check_form(Kind::Protocol)?;
        self.check_units()?;
        Ok(Content::Packet {
            id: self.bytes[1],
            size: 128 * self.groups,
        })
    }
}
