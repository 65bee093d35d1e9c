// The room for five groups in which packets and frames are kept.
ghost use Rattle.std.specs.Prelude.{◌≡◌, ◌≤◌, length};
ghost use Rattle.frame.specs.Packet.{one_of_five};
ghost use Rattle.frame.specs.Reserved.{reserved, cleared};
ghost use Rattle.frame.specs.Room.{in_room};

// Whether so many bytes are one to five whole groups.
pub(crate) fn is_whole(size: usize) -> bool
    ensures { result ≡ one_of_five size }
{
    size % 128 == 0 && 128 <= size && size <= 640
}

// Whether a place of a packet of so many bytes is reserved. Size and place stay apart, here and in the forms: a struct of the two would only lengthen each call.
#[tactic(auto, unfolding(crate::specs::Reserved::reserved))]
pub(crate) fn is_reserved(size: usize, place: usize) -> bool
    ensures { result ≡ reserved size place }
{
    place < 2 || size.saturating_sub(14) <= place
}

// Puts zero at the reserved places of a packet.
pub(crate) fn clear_reserved(packet: &mut [u8])
    requires { 128 ≤ length packet.old }
    ensures { packet.new ≡ cleared packet.old }
{
    let end = packet.len() - 14;
    packet[..2].fill(0);
    packet[end..].fill(0);
}

// The items at the front of room for `N`, which is blank behind them.
pub(crate) fn in_room<T: Copy, const N: usize>(blank: T, items: &[T]) -> [T; N]
    requires { length items.now ≤ N }
    ensures { result ≡ in_room N blank items.now }
{
    let mut room = [blank; N];
    room[..items.len()].copy_from_slice(items);
    room
}
