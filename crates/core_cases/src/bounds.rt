// Numbers at and past the small setup's bounds, in every event that has them.
use crate::world::{ROOM, WHOLE, World};
use rules::{Asid, Ctc, Event, Gppn, Gvpn, TrapKind};
use std::io;

// A kernel's page, an application's, the value that a call returns, and a context's registers.
const PAGE: &[u8] = b"the kernel wrote";

const OWN: &[u8] = b"sixteen more now";

const VALUE: &[u8] = b"01234567";

const REGISTERS: &[u8] = &[b'r'; 64];

static KERNEL: [(&str, Event, &[u8]); 26] = [
    ("begin 0 0", Event::Begin(Asid(0), Ctc(0)), b""),
    ("begin 1 0", Event::Begin(Asid(1), Ctc(0)), b""),
    ("begin 0 1", Event::Begin(Asid(0), Ctc(1)), b""),
    ("begin 255 255", Event::Begin(Asid(255), Ctc(255)), b""),
    ("end 0", Event::End(Asid(0)), b""),
    ("end 1", Event::End(Asid(1)), b""),
    ("end 255", Event::End(Asid(255)), b""),
    ("map 0 1 1", Event::Map(Asid(0), Gvpn(1), Gppn(1)), b""),
    ("map 0 1 0", Event::Map(Asid(0), Gvpn(1), Gppn(0)), b""),
    ("map 1 1 1", Event::Map(Asid(1), Gvpn(1), Gppn(1)), b""),
    ("map 0 2 1", Event::Map(Asid(0), Gvpn(2), Gppn(1)), b""),
    ("map 0 1 2", Event::Map(Asid(0), Gvpn(1), Gppn(2)), b""),
    ("map 0 255 0", Event::Map(Asid(0), Gvpn(255), Gppn(0)), b""),
    ("map 0 0 255", Event::Map(Asid(0), Gvpn(0), Gppn(255)), b""),
    ("unmap 0 1", Event::Unmap(Asid(0), Gvpn(1)), b""),
    ("unmap 1 1", Event::Unmap(Asid(1), Gvpn(1)), b""),
    ("unmap 0 2", Event::Unmap(Asid(0), Gvpn(2)), b""),
    ("kernel read 1", Event::KernelRead(Gppn(1), WHOLE), b""),
    ("kernel read 2", Event::KernelRead(Gppn(2), WHOLE), b""),
    ("kernel read 255", Event::KernelRead(Gppn(255), WHOLE), b""),
    ("kernel write 1", Event::KernelWrite(Gppn(1), WHOLE), PAGE),
    ("kernel write 2", Event::KernelWrite(Gppn(2), WHOLE), PAGE),
    (
        "kernel write 255",
        Event::KernelWrite(Gppn(255), WHOLE),
        PAGE,
    ),
    ("resume 0 0", Event::Resume(Asid(0), Ctc(0)), VALUE),
    ("resume 1 0", Event::Resume(Asid(1), Ctc(0)), VALUE),
    ("resume 0 1", Event::Resume(Asid(0), Ctc(1)), VALUE),
];

static APPLICATION: [(&str, Event, &[u8]); 27] = [
    ("spawn 0 0", Event::Spawn(Ctc(0), Ctc(0)), b""),
    ("spawn 1 0", Event::Spawn(Ctc(1), Ctc(0)), b""),
    ("spawn 0 1", Event::Spawn(Ctc(0), Ctc(1)), b""),
    ("leave 0", Event::Leave(Ctc(0)), b""),
    ("leave 1", Event::Leave(Ctc(1)), b""),
    ("leave 255", Event::Leave(Ctc(255)), b""),
    ("cloak 0 1", Event::Cloak(Ctc(0), Gvpn(1)), b""),
    ("cloak 1 1", Event::Cloak(Ctc(1), Gvpn(1)), b""),
    ("cloak 0 2", Event::Cloak(Ctc(0), Gvpn(2)), b""),
    ("uncloak 0 1", Event::Uncloak(Ctc(0), Gvpn(1)), b""),
    ("uncloak 0 0", Event::Uncloak(Ctc(0), Gvpn(0)), b""),
    ("uncloak 1 1", Event::Uncloak(Ctc(1), Gvpn(1)), b""),
    ("uncloak 0 2", Event::Uncloak(Ctc(0), Gvpn(2)), b""),
    ("read 0 1", Event::Read(Ctc(0), Gvpn(1), WHOLE), b""),
    ("read 0 0", Event::Read(Ctc(0), Gvpn(0), WHOLE), b""),
    ("read 1 1", Event::Read(Ctc(1), Gvpn(1), WHOLE), b""),
    ("read 0 2", Event::Read(Ctc(0), Gvpn(2), WHOLE), b""),
    ("write 0 1", Event::Write(Ctc(0), Gvpn(1), WHOLE), OWN),
    ("write 0 0", Event::Write(Ctc(0), Gvpn(0), WHOLE), OWN),
    ("write 1 1", Event::Write(Ctc(1), Gvpn(1), WHOLE), OWN),
    ("write 0 2", Event::Write(Ctc(0), Gvpn(2), WHOLE), OWN),
    (
        "call 0",
        Event::Trap(Ctc(0), TrapKind::Call, 129),
        REGISTERS,
    ),
    (
        "call 1",
        Event::Trap(Ctc(1), TrapKind::Call, 129),
        REGISTERS,
    ),
    // An interrupt with a mask is no event, whatever else is wrong with it.
    (
        "interrupt 0 mask 0",
        Event::Trap(Ctc(0), TrapKind::Interrupt, 0),
        REGISTERS,
    ),
    (
        "interrupt 0 mask 1",
        Event::Trap(Ctc(0), TrapKind::Interrupt, 1),
        REGISTERS,
    ),
    (
        "interrupt 0 mask 128",
        Event::Trap(Ctc(0), TrapKind::Interrupt, 128),
        REGISTERS,
    ),
    (
        "interrupt 1 mask 0",
        Event::Trap(Ctc(1), TrapKind::Interrupt, 0),
        REGISTERS,
    ),
];

pub fn all(rt: &impl Print) -> io::Result<()> {
    let base = World::base();
    for &(name, event, data) in &KERNEL {
        base.step(rt, "step", name, event, data, ROOM)?;
    }
    for &(name, event, data) in &APPLICATION {
        base.step(rt, "step", name, event, data, ROOM)?;
    }
    let masked = Event::Trap(Ctc(1), TrapKind::Interrupt, 255);
    base.step(rt, "step", "interrupt 1 mask 255", masked, b"", 0)?;
    Ok(())
}
