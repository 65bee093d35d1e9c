// What a line of a script asks for.
ghost use Rattle.std.specs.Prelude.{◌≡◌, Some, None, MatchResult};
ghost use Rattle.commands.specs.Session.{load_fault, load_bytes};
ghost use Rattle.commands.specs.Text.{carrier_text};

use carrier::harm::Harm;
use frame::packet::Packet;
use std::fmt;
use terms::fault::PacketFault;
use terms::mark::Mark;
use terms::reply::Reply;

#[derive(Drop)]
pub enum Command {
    Seal { id: u8, load: Load },
    Reply(Reply),
    Raw { bytes: Vec<u8>, marks: Vec<Mark> },
    Flip { place: usize, mask: u8 },
    Mark { character: usize, mark: Mark },
    Read,
    Unpack { size: usize },
    Show,
    Carrier(CarrierKind),
    Plan(Harm),
    Put,
    Take,
}

// What is put into a packet.
#[derive(Drop)]
pub enum Load {
    // one value at every place that is not reserved
    Filled { size: usize, fill: u8 },
    // the packet's own bytes
    Bytes(Vec<u8>),
}

impl Load {
    pub(crate) fn packet(&self) -> Result<Packet, PacketFault>
        ensures { MatchResult result (λ p. (load_fault self.now ≡ None) × (p ≡ load_bytes self.now)) (λ f. load_fault self.now ≡ Some f) }
    {
        match self {
            Load::Filled { size, fill } => Packet::filled(*size, *fill),
            Load::Bytes(bytes) => Packet::new(bytes.as_slice()),
        }
    }
}

// What kind of carrier is made.
#[derive(Clone, Copy)]
pub enum CarrierKind {
    Straight,
}

impl fmt::Display for CarrierKind {
    ghost output = { λ k. Some (carrier_text k) };

    fn fmt<W: fmt::Write>(&self, f: &mut fmt::Formatter<W>) -> fmt::Result {
        f.write_str(match self {
            CarrierKind::Straight => "straight",
        })
    }
}
