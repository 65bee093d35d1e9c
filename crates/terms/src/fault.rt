// What is refused, and what a panel shows of it.
ghost use Rattle.std.specs.Prelude.{◌≡◌, Some};
ghost use Rattle.terms.specs.Fault.{packet_refusal, frame_refusal, host_refusal, unpack_refusal};
ghost use Rattle.terms.specs.declared.fault.UnpackFault.TheVariants.{Frame as ByFrame, Host as ByHost};
ghost use Rattle.terms.specs.Text.{layer_text, refusal_text};

use std::fmt;

// The part of the box that refuses.
#[derive(Clone, Copy, PartialEq, Eq, Debug)]
pub enum Layer {
    End,
    Carrier,
    Frame,
    Check,
    Host,
    Lane,
    Setting,
}

// A refusal as a panel shows it: each fault that a panel can show becomes one.
#[derive(Clone, Copy, PartialEq, Eq, Debug)]
pub struct Refusal {
    // a number, since a panel shows numbers: code matches the faults themselves
    pub number: u8,
    pub layer: Layer,
    pub place: usize,
}

impl fmt::Display for Layer {
    ghost output = { λ l. Some (layer_text l) };

    fn fmt<W: fmt::Write>(&self, f: &mut fmt::Formatter<W>) -> fmt::Result {
        f.write_str(match self {
            Layer::End => "end",
            Layer::Carrier => "carrier",
            Layer::Frame => "frame",
            Layer::Check => "check",
            Layer::Host => "host",
            Layer::Lane => "lane",
            Layer::Setting => "setting",
        })
    }
}

impl fmt::Display for Refusal {
    ghost output = { λ r. Some (refusal_text r) };

    fn fmt<W: fmt::Write>(&self, f: &mut fmt::Formatter<W>) -> fmt::Result {
        write!(f, "{} {} {}", self.number, self.layer, self.place)
    }
}

// Parts that make no frame: no panel shows it.
#[derive(Clone, Copy, PartialEq, Eq, Debug)]
pub enum ShapeFault {
    // the bytes are not one to five whole groups
    Bytes,
    // there is not one mark to every sixteen bytes
    Marks,
}

// Bytes that are no packet.
#[derive(Clone, Copy, PartialEq, Eq, Debug)]
pub enum PacketFault {
    Length,
    Reserved(usize),
}

// A frame that is not good: a sync error at a character, a wrong form or a wrong check at a place.
#[derive(Clone, Copy, PartialEq, Eq, Debug)]
pub enum FrameFault {
    Sync(usize),
    Form(usize),
    Check(usize),
}

// A host's buffer that is too short for a packet of so many bytes.
#[derive(Clone, Copy, PartialEq, Eq, Debug)]
pub struct HostFault {
    pub needed: usize,
}

// A frame that could not be unpacked.
#[derive(Clone, Copy, PartialEq, Eq, Debug)]
pub enum UnpackFault {
    Frame(FrameFault),
    Host(HostFault),
}

impl From<FrameFault> for UnpackFault {
    ghost from_gives = { λ f r. r ≡ ByFrame f };

    fn from(fault: FrameFault) -> UnpackFault {
        UnpackFault::Frame(fault)
    }
}

impl From<HostFault> for UnpackFault {
    ghost from_gives = { λ f r. r ≡ ByHost f };

    fn from(fault: HostFault) -> UnpackFault {
        UnpackFault::Host(fault)
    }
}

impl From<PacketFault> for Refusal {
    ghost from_gives = { λ f r. r ≡ packet_refusal f };

    fn from(fault: PacketFault) -> Refusal {
        let (number, place) = match fault {
            PacketFault::Length => (1, 0),
            PacketFault::Reserved(place) => (2, place),
        };
        Refusal {
            number,
            layer: Layer::End,
            place,
        }
    }
}

impl From<FrameFault> for Refusal {
    ghost from_gives = { λ f r. r ≡ frame_refusal f };

    fn from(fault: FrameFault) -> Refusal {
        let (number, layer, place) = match fault {
            FrameFault::Sync(character) => (7, Layer::Frame, character),
            FrameFault::Form(place) => (8, Layer::Frame, place),
            FrameFault::Check(place) => (9, Layer::Check, place),
        };
        Refusal {
            number,
            layer,
            place,
        }
    }
}

impl From<HostFault> for Refusal {
    ghost from_gives = { λ f r. r ≡ host_refusal f };

    fn from(fault: HostFault) -> Refusal {
        Refusal {
            number: 11,
            layer: Layer::Host,
            place: fault.needed,
        }
    }
}

impl From<UnpackFault> for Refusal {
    ghost from_gives = { λ f r. r ≡ unpack_refusal f };

    fn from(fault: UnpackFault) -> Refusal {
        match fault {
            UnpackFault::Frame(f) => Refusal::from(f),
            UnpackFault::Host(f) => Refusal::from(f),
        }
    }
}
