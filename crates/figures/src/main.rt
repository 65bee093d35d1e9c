// The worked figures: those that are proved, as one table, and those that are run, each with what is expected and what was found.
#![tactic(auto)]

ghost use Rattle.std.specs.Prelude.{◌≡◌, length};
ghost use Rattle.figures.specs.Figures.{figures, Hold};

mod figure;

use anyhow::ensure;
use carrier::carrier::Carrier;
use carrier::harming::Harming;
use carrier::straight::Straight;
use crc::link::link_check;
use figure::Figure;
use frame::frame::Frame;
use frame::packet::Packet;
use link::counts::Counts;
use link::side::Side;
use link::worked::worked_counts;
use terms::reply::{Reply, ReplyKind};

// How many figures of the rules are proved.
pub fn figures_proved() -> usize
    ensures hold { Hold }
    ensures count { result ≡ length figures }
{
    8
}

// The check of unit 1 in a sealed packet of one group that is zero but for that unit's last byte.
fn unit_1(last: u8) -> Option<u64> {
    let mut bytes = [0; 128];
    bytes[31] = last;
    let packet = Packet::new(&bytes).ok()?;
    let frame = Frame::seal(&packet, 0);
    frame.bytes().get(115).map(|check| u64::from(*check))
}

// Places 8 to 15 of ACK 0 as one number, the first byte highest.
fn ack_0() -> Option<u64> {
    let ack = Frame::reply(Reply {
        kind: ReplyKind::Ack,
        id: 0,
    });
    let word = ack.bytes().get(8..)?.first_chunk()?;
    Some(u64::from_be_bytes(*word))
}

fn run_figures() -> [Figure; 5] {
    [
        Figure {
            what: "place 115, place 31 being 0x01",
            expected: 0xA1,
            found: unit_1(0x01),
        },
        Figure {
            what: "place 115, place 31 being 0x80",
            expected: 0x49,
            found: unit_1(0x80),
        },
        Figure {
            what: "place 115, place 31 being 0xff",
            expected: 0x11,
            found: unit_1(0xFF),
        },
        Figure {
            what: "places 8 to 15 of ACK 0",
            expected: 0xA500_0000_0000_AF18,
            found: ack_0(),
        },
        Figure {
            what: "CRC-16/UMTS of 123456789",
            expected: 0xFEE8,
            found: Some(u64::from(link_check(b"123456789"))),
        },
    ]
}

// The counts of the worked run, for a harmed way there and a straight way back.
fn show_worked_run(rt: &HostRuntime) -> anyhow::Result<()> {
    let Counts {
        taken,
        handed_up,
        released,
        held,
    } = worked_counts::<Harming<Straight>, Straight>(Side::A);
    println!(rt;
        "worked run: {taken} taken, {handed_up} handed up, {released} released, {held} held"
    )?;
    Ok(())
}

fn main(rt: HostRuntime) -> anyhow::Result<()> {
    let proved = figures_proved();
    println!(rt; "{proved} figures of the rules are proved")?;
    show_worked_run(&rt)?;
    let figures = run_figures();
    for figure in &figures {
        println!(rt; "{figure}")?;
    }
    ensure!(
        figures.iter().all(|figure| figure.is_right()),
        "a figure is not what was expected"
    );
    Ok(())
}
