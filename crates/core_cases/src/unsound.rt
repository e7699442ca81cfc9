// Tables that are no image of a sound state, each by a word or two: step and look refuse them with 10. Among them stand a few that are one.
//
// A domain's word is 1 where it is Live and 2 where it is Stopped. A context's is 1 + 3d where it is Running in domain d, 2 + 3d where it
// is Kept by an interrupt, 3 + 3d by a call. A frame's is one more than the number among all of the page that it names. A page's words are
// one more than the frame that it is mapped to, the frame that it is Clear in, and its signature's number. 0 is none of these.
use crate::world::{ROOM, World, first_mut};
use core_tables::{CONTEXTS_AT, DOMAINS_AT, FRAMES_AT, HOME_AT, MAPPED_AT, SIGN_AT, USED_AT};
use rules::{Asid, Event, Gppn, Gvpn, Span};
use std::io;

// A case's name, and the words of the tables that are made others, each with its place.
type Case = (&'static str, &'static [(usize, u16)]);

static BASE: [Case; 13] = [
    ("sound", &[]),
    ("used 0", &[(USED_AT, 0)]),
    ("used 2", &[(USED_AT, 2)]),
    ("used 3", &[(USED_AT, 3)]),
    ("used 65535", &[(USED_AT, 65535)]),
    ("domain 1 Live", &[(DOMAINS_AT + 1, 1)]),
    ("domain 7 Stopped", &[(DOMAINS_AT + 7, 2)]),
    ("life 0", &[(DOMAINS_AT, 0)]),
    ("life 2", &[(DOMAINS_AT, 2)]),
    ("life 3", &[(DOMAINS_AT, 3)]),
    ("life 65535", &[(DOMAINS_AT, 65535)]),
    ("context 1 Running", &[(CONTEXTS_AT + 1, 1)]),
    ("context 15 Kept", &[(CONTEXTS_AT + 15, 2)]),
];

// Of the fresh state, whose domain 0 is Empty.
static IN_EMPTY: [Case; 2] = [
    ("Running in Empty", &[(CONTEXTS_AT, 1)]),
    ("Kept in Empty", &[(CONTEXTS_AT, 2)]),
];

// The last but one would be Running in domain 0 if its domain were a byte.
static CONTEXTS: [Case; 6] = [
    ("Kept by a call in 0", &[(CONTEXTS_AT, 3)]),
    ("Running in 1", &[(CONTEXTS_AT, 4)]),
    ("Kept in 8", &[(CONTEXTS_AT, 26)]),
    ("Running in 255", &[(CONTEXTS_AT, 766)]),
    ("Running in 256", &[(CONTEXTS_AT, 769)]),
    ("context word 65535", &[(CONTEXTS_AT, 65535)]),
];

// How many saved registers are lent, the last of them 1: those of contexts past the setup's are no longer of the lent length.
static SAVED: [(&str, usize); 3] = [("saved 0", 8), ("saved 1", 16), ("saved 15", 128)];

// A page, and what its three words are made.
static PAGES: [(&str, u8, [u16; 3]); 23] = [
    // Page 0 stays Sealed. The last but one would be frame 0 if a frame were a byte.
    ("mapped to 1", 0, [2, 0, 1]),
    ("mapped to 2", 0, [3, 0, 1]),
    ("mapped to 255", 0, [256, 0, 1]),
    ("mapped to 256", 0, [257, 0, 1]),
    ("mapped word 65535", 0, [65535, 0, 1]),
    ("page 2 mapped", 2, [1, 0, 0]),
    ("page 2 Clear", 2, [0, 1, 0]),
    ("page 2 Sealed", 2, [0, 0, 1]),
    ("page 255 mapped", 255, [1, 0, 0]),
    ("page 255 Clear", 255, [0, 1, 0]),
    ("page 255 Sealed", 255, [0, 0, 1]),
    // Page 1 is Clear in frame 1, which 257 would be if a frame were a byte.
    ("Clear in 0, which names none", 0, [0, 1, 0]),
    ("Clear in 1, which names another", 0, [0, 2, 0]),
    ("Clean in 1, which names another", 0, [0, 2, 1]),
    ("Clear in 2", 0, [0, 3, 0]),
    ("Clear in 255", 0, [0, 256, 0]),
    ("Clear in 257", 1, [0, 258, 0]),
    ("home word 65535", 0, [0, 65535, 0]),
    ("Sealed 1 of 1", 0, [0, 0, 2]),
    ("Sealed 65534 of 1", 0, [0, 0, 65535]),
    ("Clean 0 of 1", 1, [0, 2, 1]),
    ("Clean 1 of 1", 1, [0, 2, 2]),
    ("Clean 65534 of 1", 1, [0, 2, 65535]),
];

static FRAMES: [Case; 11] = [
    ("frame 0 names a Sealed page", &[(FRAMES_AT, 1)]),
    ("frame 0 names a page Clear in 1", &[(FRAMES_AT, 2)]),
    (
        "frames 0 and 1 name a page Clear in 0",
        &[(FRAMES_AT, 2), (HOME_AT + 1, 1)],
    ),
    ("frame 1 names none", &[(FRAMES_AT + 1, 0)]),
    (
        "frame 1 names a Public page",
        &[(MAPPED_AT + 1, 0), (HOME_AT + 1, 0), (SIGN_AT + 1, 0)],
    ),
    // Page 2 among all is the first past the last. The last but one would be page 1 of domain 0 if its domain were a byte.
    ("frame 0 names domain 1", &[(FRAMES_AT, 4)]),
    ("frame 0 names page 2", &[(FRAMES_AT, 3)]),
    ("frame 1 names domain 256", &[(FRAMES_AT + 1, 514)]),
    ("frame word 65535", &[(FRAMES_AT, 65535)]),
    ("frame 2 names a page", &[(FRAMES_AT + 2, 2)]),
    ("frame 63 names a page", &[(FRAMES_AT + 63, 2)]),
];

// Of the fresh state.
static EMPTY: [Case; 4] = [
    ("fresh", &[]),
    ("Empty and mapped", &[(MAPPED_AT, 1)]),
    ("Empty and Clear", &[(HOME_AT, 1), (FRAMES_AT, 1)]),
    ("Empty and private", &[(USED_AT, 1), (SIGN_AT, 1)]),
];

pub fn all(rt: &impl Print) -> io::Result<()> {
    let base = World::base();
    let fresh = World::fresh();
    each(rt, base, &BASE)?;
    each(rt, fresh, &IN_EMPTY)?;
    each(rt, base, &CONTEXTS)?;
    for &(name, count) in &SAVED {
        let mut world = base;
        world.lengths.saved = count;
        if let Some(last) = first_mut(&mut world.saved, count).last_mut() {
            *last = 1;
        }
        tried(rt, name, world)?;
    }
    for &(name, page, [mapped, home, sign]) in &PAGES {
        let i = page as usize;
        let changes = [
            (MAPPED_AT + i, mapped),
            (HOME_AT + i, home),
            (SIGN_AT + i, sign),
        ];
        changed(rt, name, base, &changes)?;
    }
    each(rt, base, &FRAMES)?;
    each(rt, fresh, &EMPTY)
}

fn each(rt: &impl Print, from: World, cases: &[Case]) -> io::Result<()> {
    for &(name, changes) in cases {
        changed(rt, name, from, changes)?;
    }
    Ok(())
}

fn changed(rt: &impl Print, name: &str, from: World, changes: &[(usize, u16)]) -> io::Result<()> {
    let mut world = from;
    for &(at, word) in changes {
        if let Some(old) = world.tables.get_mut(at) {
            *old = word;
        }
    }
    tried(rt, name, world)
}

// A kernel's write to frame 0, which names no page, and then a look at page 1.
fn tried(rt: &impl Print, name: &str, world: World) -> io::Result<()> {
    let write = Event::KernelWrite(Gppn(0), Span { off: 0, len: 1 });
    let after = world.step(rt, "step", name, write, b"!", ROOM)?;
    after.look(rt, name, Asid(0), Gvpn(1))
}
