// Data of a wrong length for each kind, spans that do not fit a page, and answer buffers that are too short.
use crate::world::{ROOM, WHOLE, World};
use rules::{Asid, Ctc, Event, Gppn, Gvpn, Span, TrapKind};
use std::io;

const TWO: Span = Span { off: 0, len: 2 };

const FOUR: Span = Span { off: 2, len: 4 };

const CALL: Event = Event::Trap(Ctc(0), TrapKind::Call, 255);

const REGISTERS: &[u8] = &[b'r'; 64];

// One byte where there is to be none; then too few bytes, the right number and too many. Resume is refused, with data of the right length
// too, because context 0 is not Kept.
static DATA: [(&str, Event, &[u8]); 26] = [
    ("begin data 1", Event::Begin(Asid(0), Ctc(0)), b"!"),
    ("end data 1", Event::End(Asid(0)), b"!"),
    ("map data 1", Event::Map(Asid(0), Gvpn(1), Gppn(0)), b"!"),
    ("unmap data 1", Event::Unmap(Asid(0), Gvpn(1)), b"!"),
    (
        "kernel read data 1",
        Event::KernelRead(Gppn(1), WHOLE),
        b"!",
    ),
    ("spawn data 1", Event::Spawn(Ctc(0), Ctc(0)), b"!"),
    ("leave data 1", Event::Leave(Ctc(0)), b"!"),
    ("cloak data 1", Event::Cloak(Ctc(0), Gvpn(1)), b"!"),
    ("uncloak data 1", Event::Uncloak(Ctc(0), Gvpn(1)), b"!"),
    ("read data 1", Event::Read(Ctc(0), Gvpn(1), WHOLE), b"!"),
    (
        "kernel write 2 data 0",
        Event::KernelWrite(Gppn(1), TWO),
        b"",
    ),
    (
        "kernel write 2 data 1",
        Event::KernelWrite(Gppn(1), TWO),
        b"!",
    ),
    (
        "kernel write 2 data 2",
        Event::KernelWrite(Gppn(1), TWO),
        b"!!",
    ),
    (
        "kernel write 2 data 3",
        Event::KernelWrite(Gppn(1), TWO),
        b"!!!",
    ),
    ("write 2 data 0", Event::Write(Ctc(0), Gvpn(1), TWO), b""),
    ("write 2 data 1", Event::Write(Ctc(0), Gvpn(1), TWO), b"!"),
    ("write 2 data 2", Event::Write(Ctc(0), Gvpn(1), TWO), b"!!"),
    ("write 2 data 3", Event::Write(Ctc(0), Gvpn(1), TWO), b"!!!"),
    ("resume data 0", Event::Resume(Asid(0), Ctc(0)), b""),
    ("resume data 7", Event::Resume(Asid(0), Ctc(0)), b"0123456"),
    ("resume data 8", Event::Resume(Asid(0), Ctc(0)), b"01234567"),
    (
        "resume data 9",
        Event::Resume(Asid(0), Ctc(0)),
        b"012345678",
    ),
    ("trap data 0", CALL, b""),
    ("trap data 63", CALL, &[b'r'; 63]),
    ("trap data 64", CALL, &[b'r'; 64]),
    ("trap data 65", CALL, &[b'r'; 65]),
];

const HUGE: usize = usize::MAX;

// A name, off, len, and the data of the events that write.
static SPANS: [(&str, usize, usize, &[u8]); 9] = [
    ("off 0 len 0", 0, 0, b""),
    ("off 16 len 0", 16, 0, b""),
    ("off 15 len 1", 15, 1, b"!"),
    ("off 15 len 2", 15, 2, b"!!"),
    ("off 16 len 1", 16, 1, b"!"),
    ("off 0 len 17", 0, 17, b"seventeen bytes.."),
    ("off huge len 1", HUGE, 1, b"!"),
    ("off 1 len huge", 1, HUGE, b"!"),
    ("off huge len huge", HUGE, HUGE, b""),
];

static ROOMS: [(&str, Event, &[u8], usize); 8] = [
    (
        "kernel read 4 room 0",
        Event::KernelRead(Gppn(1), FOUR),
        b"",
        0,
    ),
    (
        "kernel read 4 room 3",
        Event::KernelRead(Gppn(1), FOUR),
        b"",
        3,
    ),
    (
        "kernel read 4 room 4",
        Event::KernelRead(Gppn(1), FOUR),
        b"",
        4,
    ),
    ("read 4 room 0", Event::Read(Ctc(0), Gvpn(1), FOUR), b"", 0),
    ("read 4 room 3", Event::Read(Ctc(0), Gvpn(1), FOUR), b"", 3),
    ("read 4 room 4", Event::Read(Ctc(0), Gvpn(1), FOUR), b"", 4),
    ("trap room 63", CALL, REGISTERS, 63),
    ("trap room 64", CALL, REGISTERS, 64),
];

// Resume gives eight registers, as the call above does. It is tried on a context that is Kept.
static RESUMES: [(&str, usize); 3] = [
    ("resume room 0", 0),
    ("resume room 63", 63),
    ("resume room 64", 64),
];

pub fn all(rt: &impl Print) -> io::Result<()> {
    let base = World::base();
    for &(name, event, data) in &DATA {
        base.step(rt, "step", name, event, data, ROOM)?;
    }
    for &(name, off, len, data) in &SPANS {
        span(rt, &base, name, Span { off, len }, data)?;
    }
    for &(name, event, data, room) in &ROOMS {
        base.step(rt, "step", name, event, data, room)?;
    }
    let mut kept = base;
    kept.after(CALL, REGISTERS);
    for &(name, room) in &RESUMES {
        let resume = Event::Resume(Asid(0), Ctc(0));
        kept.step(rt, "step", name, resume, b"01234567", room)?;
    }
    Ok(())
}

// One span in each of the four events that have one: four calls are no longer than an array of them and a loop, and cheaper to check.
fn span(rt: &impl Print, base: &World, name: &str, s: Span, data: &[u8]) -> io::Result<()> {
    base.step(
        rt,
        "step kernel read",
        name,
        Event::KernelRead(Gppn(1), s),
        b"",
        ROOM,
    )?;
    base.step(
        rt,
        "step kernel write",
        name,
        Event::KernelWrite(Gppn(1), s),
        data,
        ROOM,
    )?;
    base.step(
        rt,
        "step read",
        name,
        Event::Read(Ctc(0), Gvpn(1), s),
        b"",
        ROOM,
    )?;
    base.step(
        rt,
        "step write",
        name,
        Event::Write(Ctc(0), Gvpn(1), s),
        data,
        ROOM,
    )?;
    Ok(())
}
