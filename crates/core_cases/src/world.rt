// A setup and all that is lent to the core in it; the states of document 01's small setup that cases begin with; and the entry points
// called, a line each.
use crate::lines::{Fresh, Kept, Told};
use rules::{Answer, Asid, Ctc, Event, Gppn, Gvpn, Setup, Span};
use std::io;

// The most that a case lends: a word more than tables have, the registers of one context more than there may be, and a page of the first
// size past the largest.
const MOST_WORDS: usize = core_tables::WORDS + 1;

const MOST_REGISTERS: usize = 8 * (Setup::MAX_CONTEXTS + 1);

const MOST_BYTES: usize = 4112;

// The longest answer is eight registers.
pub const ROOM: usize = 64;

// Document 01's small setup, and a whole page of it.
const SMALL: Setup = Setup {
    size: 16,
    domains: 1,
    pages: 2,
    contexts: 1,
    frames: 2,
    signatures: 2,
};

pub const WHOLE: Span = Span { off: 0, len: 16 };

// How many words or bytes of each are lent.
#[derive(Clone, Copy)]
pub struct Lengths {
    pub tables: usize,
    pub saved: usize,
    pub frames: usize,
    pub store: usize,
    pub supply: usize,
}

// Of each array its first words or bytes are lent.
#[derive(Clone, Copy)]
pub struct World {
    setup: Setup,
    pub lengths: Lengths,
    pub tables: [u16; MOST_WORDS],
    pub saved: [u64; MOST_REGISTERS],
    frames: [u8; MOST_BYTES],
    store: [u8; MOST_BYTES],
    supply: [u8; MOST_BYTES],
}

// The first n of all, or all where there are fewer.
fn first<T>(all: &[T], n: usize) -> &[T] {
    &all[..all.len().min(n)]
}

pub fn first_mut<T>(all: &mut [T], n: usize) -> &mut [T] {
    let count = all.len().min(n);
    &mut all[..count]
}

impl World {
    // Every word is the same.
    pub fn filled(setup: Setup, lengths: Lengths, word: u8) -> World {
        World {
            setup,
            lengths,
            tables: [word as u16; MOST_WORDS],
            saved: [word as u64; MOST_REGISTERS],
            frames: [b'f'; MOST_BYTES],
            store: [b's'; MOST_BYTES],
            supply: [b'x'; MOST_BYTES],
        }
    }

    // The small setup, freshly started. Its first signature is of a's, and its second of b's.
    pub fn fresh() -> World {
        let lengths = Lengths {
            tables: core_tables::WORDS,
            saved: 8,
            frames: 32,
            store: 32,
            supply: 32,
        };
        let mut world = World::filled(SMALL, lengths, 0);
        world.supply = [b'b'; MOST_BYTES];
        first_mut(&mut world.supply, 16).fill(b'a');
        world.call_start();
        world
    }

    // Context 0 Running; page 0 Sealed with signature 0, its bytes in frame 0; and page 1 Clear in frame 1, dirty. One signature is used.
    pub fn base() -> World {
        let mut world = World::fresh();
        world.after(Event::Begin(Asid(0), Ctc(0)), b"");
        world.private(Gvpn(0), Gppn(0), b"sixteen bytes in");
        world.after(Event::KernelRead(Gppn(0), WHOLE), b"");
        world.private(Gvpn(1), Gppn(1), b"the second page.");
        world
    }

    // Page v is mapped to frame f, cloaked, and written whole.
    fn private(&mut self, v: Gvpn, f: Gppn, data: &[u8]) {
        self.after(Event::Map(Asid(0), v, f), b"");
        self.after(Event::Cloak(Ctc(0), v), b"");
        self.after(Event::Write(Ctc(0), v, WHOLE), data);
    }

    // What an event leaves.
    pub fn after(&mut self, event: Event, data: &[u8]) {
        self.call_step(event, data, &mut [0; ROOM]);
    }

    fn call_start(&mut self) -> Answer {
        let lengths = self.lengths;
        core_entry::start(
            self.setup,
            first_mut(&mut self.tables, lengths.tables),
            first_mut(&mut self.saved, lengths.saved),
            first_mut(&mut self.frames, lengths.frames),
            first_mut(&mut self.store, lengths.store),
            first(&self.supply, lengths.supply),
        )
    }

    fn call_step(&mut self, event: Event, data: &[u8], answer: &mut [u8]) -> Answer {
        let lengths = self.lengths;
        core_entry::step(
            self.setup,
            first_mut(&mut self.tables, lengths.tables),
            first_mut(&mut self.saved, lengths.saved),
            first_mut(&mut self.frames, lengths.frames),
            first_mut(&mut self.store, lengths.store),
            first(&self.supply, lengths.supply),
            event,
            data,
            answer,
        )
    }

    // The answer, then whether frames and store are as before, and every word of tables and saved registers 0.
    pub fn start(&self, rt: &impl Print, name: &str) -> io::Result<()> {
        let mut after = *self;
        let told = Told(after.call_start());
        let frames = Kept(after.frames == self.frames);
        let store = Kept(after.store == self.store);
        let tables = first(&after.tables, self.lengths.tables);
        let saved = first(&after.saved, self.lengths.saved);
        let zero = [0; MOST_WORDS].starts_with(tables) && [0; MOST_REGISTERS].starts_with(saved);
        let words = Fresh(zero);
        println!(rt; "start {name}: {told} {frames} {store} {words}")
    }

    // One event: the answer, then whether frames, store, answer buffer, and tables with saved registers are as before. What it leaves is
    // handed back.
    pub fn step(
        &self,
        rt: &impl Print,
        call: &str,
        name: &str,
        event: Event,
        data: &[u8],
        room: usize,
    ) -> io::Result<World> {
        let mut after = *self;
        let mut buffer = [b'-'; ROOM];
        let told = Told(after.call_step(event, data, first_mut(&mut buffer, room)));
        let frames = Kept(after.frames == self.frames);
        let store = Kept(after.store == self.store);
        let answer = Kept(buffer == [b'-'; ROOM]);
        let words = Kept(after.tables == self.tables && after.saved == self.saved);
        println!(rt; "{call} {name}: {told} {frames} {store} {answer} {words}")?;
        Ok(after)
    }

    // The number, how many bytes are handed back, and the bytes, which are text.
    pub fn look(&self, rt: &impl Print, name: &str, d: Asid, v: Gvpn) -> io::Result<()> {
        let tables = first(&self.tables, self.lengths.tables);
        let saved = first(&self.saved, self.lengths.saved);
        let frames = first(&self.frames, self.lengths.frames);
        let store = first(&self.store, self.lengths.store);
        let number = core_entry::look_number(self.setup, tables, saved, frames, store, d, v);
        let seen = core_entry::look(self.setup, tables, saved, frames, store, d, v);
        let count = seen.len();
        let bytes = seen.escape_ascii();
        println!(rt; "look {name}: {number} {count} [{bytes}]")
    }
}
