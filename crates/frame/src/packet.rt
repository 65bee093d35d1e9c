// A packet: one to five groups of 128 bytes with its reserved places zero.
mod make;

use std::marker::Model;

// Fixed memory, as a device has it, and copied as it is: room for five groups, zero behind the packet's own.
#[derive(Clone, Copy)]
pub struct Packet {
    groups: usize,
    bytes: [u8; 640],
}

// Clauses see the bytes of a packet.
impl Model for Packet {
    ghost use Rattle.std.specs.Prelude.{ℕ, ◌*◌, ◌/◌, List, length, refl, take};
    ghost use Rattle.frame.specs.Room.{in_room, PacketRoom};
    ghost use Rattle.frame.specs.RoomBack.{packet_back};

    ghost Value = { List ℕ };

    ghost view = { λ p. take (128 * p.groups) p.bytes };

    ghost invariant = { λ p. PacketRoom p.groups p.bytes };

    ghost inverse = { λ xs. record { groups = length xs / 128; bytes = in_room 640 0 xs } };

    ghost inverse_ok = { λ a h. let e = packet_back _ _ h in Prim.rw (e.0, e.1) refl };
}
