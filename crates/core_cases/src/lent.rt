// Setups out of range, and lent memory of a wrong length: start on words that are all 1, step and look in the fresh state, each on words
// and bytes of its own.
use crate::world::{Lengths, ROOM, World};
use core_tables::WORDS;
use rules::{Asid, Event, Gppn, Gvpn, Setup, Span};
use std::io;

const HUGE: usize = usize::MAX;

// The largest that is a multiple of 16.
const HUGE_SIZE: usize = usize::MAX - 15;

// A name; P, D, V, T, F and N; and how many words or bytes are lent of tables, saved registers, frames, store and supply.
static CASES: [(&str, [usize; 6], [usize; 5]); 48] = [
    ("P 0", [0, 1, 2, 1, 2, 2], [WORDS, 8, 0, 0, 0]),
    ("P 8", [8, 1, 2, 1, 2, 2], [WORDS, 8, 16, 16, 16]),
    ("P 15", [15, 1, 2, 1, 2, 2], [WORDS, 8, 30, 30, 30]),
    ("P 16", [16, 1, 2, 1, 2, 2], [WORDS, 8, 32, 32, 32]),
    ("P 17", [17, 1, 2, 1, 2, 2], [WORDS, 8, 34, 34, 34]),
    ("P 24", [24, 1, 2, 1, 2, 2], [WORDS, 8, 48, 48, 48]),
    (
        "P 4088",
        [4088, 1, 1, 1, 1, 1],
        [WORDS, 8, 4088, 4088, 4088],
    ),
    (
        "P 4096",
        [4096, 1, 1, 1, 1, 1],
        [WORDS, 8, 4096, 4096, 4096],
    ),
    (
        "P 4097",
        [4097, 1, 1, 1, 1, 1],
        [WORDS, 8, 4097, 4097, 4097],
    ),
    (
        "P 4112",
        [4112, 1, 1, 1, 1, 1],
        [WORDS, 8, 4112, 4112, 4112],
    ),
    ("P huge", [HUGE_SIZE, 1, 2, 1, 2, 2], [WORDS, 8, 0, 0, 0]),
    ("D 0", [16, 0, 2, 1, 2, 2], [WORDS, 8, 32, 0, 32]),
    ("D 8", [16, 8, 2, 1, 2, 2], [WORDS, 8, 32, 256, 32]),
    ("D 9", [16, 9, 2, 1, 2, 2], [WORDS, 8, 32, 288, 32]),
    ("D huge", [16, HUGE, 2, 1, 2, 2], [WORDS, 8, 32, 0, 32]),
    ("V 0", [16, 1, 0, 1, 2, 2], [WORDS, 8, 32, 0, 32]),
    ("V 1", [16, 1, 1, 1, 2, 2], [WORDS, 8, 32, 16, 32]),
    ("V 32", [16, 1, 32, 1, 2, 2], [WORDS, 8, 32, 512, 32]),
    ("V 33", [16, 1, 33, 1, 2, 2], [WORDS, 8, 32, 528, 32]),
    ("V huge", [16, 1, HUGE, 1, 2, 2], [WORDS, 8, 32, 0, 32]),
    ("T 0", [16, 1, 2, 0, 2, 2], [WORDS, 0, 32, 32, 32]),
    ("T 16", [16, 1, 2, 16, 2, 2], [WORDS, 128, 32, 32, 32]),
    ("T 17", [16, 1, 2, 17, 2, 2], [WORDS, 136, 32, 32, 32]),
    ("T huge", [16, 1, 2, HUGE, 2, 2], [WORDS, 8, 32, 32, 32]),
    ("F 0", [16, 1, 2, 1, 0, 2], [WORDS, 8, 0, 32, 32]),
    ("F 1", [16, 1, 2, 1, 1, 2], [WORDS, 8, 16, 32, 32]),
    ("F 64", [16, 1, 2, 1, 64, 2], [WORDS, 8, 1024, 32, 32]),
    ("F 65", [16, 1, 2, 1, 65, 2], [WORDS, 8, 1040, 32, 32]),
    ("F huge", [16, 1, 2, 1, HUGE, 2], [WORDS, 8, 0, 32, 32]),
    // A supply for 65,535 signatures is too long to be made here: of N past the limit the supply's length is wrong as well.
    ("N 0", [16, 1, 2, 1, 2, 0], [WORDS, 8, 32, 32, 0]),
    ("N 257", [16, 1, 2, 1, 2, 257], [WORDS, 8, 32, 32, 4112]),
    ("N 65536", [16, 1, 2, 1, 2, 65536], [WORDS, 8, 32, 32, 4112]),
    ("N huge", [16, 1, 2, 1, 2, HUGE], [WORDS, 8, 32, 32, 0]),
    ("frames 0", [16, 1, 2, 1, 2, 2], [WORDS, 8, 0, 32, 32]),
    ("frames 31", [16, 1, 2, 1, 2, 2], [WORDS, 8, 31, 32, 32]),
    ("frames 33", [16, 1, 2, 1, 2, 2], [WORDS, 8, 33, 32, 32]),
    ("store 0", [16, 1, 2, 1, 2, 2], [WORDS, 8, 32, 0, 32]),
    ("store 31", [16, 1, 2, 1, 2, 2], [WORDS, 8, 32, 31, 32]),
    ("store 33", [16, 1, 2, 1, 2, 2], [WORDS, 8, 32, 33, 32]),
    // Look is lent no supply.
    ("supply 0", [16, 1, 2, 1, 2, 2], [WORDS, 8, 32, 32, 0]),
    ("supply 31", [16, 1, 2, 1, 2, 2], [WORDS, 8, 32, 32, 31]),
    ("supply 33", [16, 1, 2, 1, 2, 2], [WORDS, 8, 32, 32, 33]),
    ("tables empty", [16, 1, 2, 1, 2, 2], [0, 8, 32, 32, 32]),
    (
        "tables one short",
        [16, 1, 2, 1, 2, 2],
        [WORDS - 1, 8, 32, 32, 32],
    ),
    (
        "tables one long",
        [16, 1, 2, 1, 2, 2],
        [WORDS + 1, 8, 32, 32, 32],
    ),
    ("saved empty", [16, 1, 2, 1, 2, 2], [WORDS, 0, 32, 32, 32]),
    (
        "saved one short",
        [16, 1, 2, 1, 2, 2],
        [WORDS, 7, 32, 32, 32],
    ),
    (
        "saved one long",
        [16, 1, 2, 1, 2, 2],
        [WORDS, 9, 32, 32, 32],
    ),
];

pub fn all(rt: &impl Print) -> io::Result<()> {
    for &(name, sizes, lengths) in &CASES {
        tried(rt, name, setup(sizes), lend(lengths))?;
    }
    Ok(())
}

fn setup([size, domains, pages, contexts, frames, signatures]: [usize; 6]) -> Setup {
    Setup {
        size,
        domains,
        pages,
        contexts,
        frames,
        signatures,
    }
}

fn lend([tables, saved, frames, store, supply]: [usize; 5]) -> Lengths {
    Lengths {
        tables,
        saved,
        frames,
        store,
        supply,
    }
}

// The step is the kernel's write of a byte to frame 0.
fn tried(rt: &impl Print, name: &str, setup: Setup, lengths: Lengths) -> io::Result<()> {
    let write = Event::KernelWrite(Gppn(0), Span { off: 0, len: 1 });
    let ones = World::filled(setup, lengths, 1);
    let zeros = World::filled(setup, lengths, 0);
    ones.start(rt, name)?;
    zeros.step(rt, "step", name, write, b"!", ROOM)?;
    zeros.look(rt, name, Asid(0), Gvpn(0))
}
