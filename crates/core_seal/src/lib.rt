// Sealing and unveiling: the only ways in which a private page's bytes move between frames and store.
// Each function asks what the rules' acceptance and their count of signatures give (specs/Asked.antt), and does what
// the rule of its name says, with no byte and no record changed beside. What is lent comes part by part: a caller goes on with it, and
// a `core_answer::Lent`, which is taken by value, would be gone.
#![tactic(auto)]

ghost use Rattle.std.specs.Prelude.{[], ◌∷◌, ◌<◌};
ghost use Rattle.rules.specs.Records.{place_of};
ghost use Rattle.rules.specs.Sealing.{sealed_first};
ghost use Rattle.core_tables.specs.Image.{tables_in};
ghost use Rattle.core_seal.specs.Asked.{Sealable, Unveilable, Bringable};
ghost use Rattle.core_seal.specs.Promises.{Seals, Unveils, SealsAndUnveils, BringsIn};

use core_seal_bytes::{seal_bytes, sealed_with, unveil_bytes, used_after};
use rules::{Asid, Gppn, Gvpn, Life, Place, Setup, Wear};

// The counts of the event under way.
#[derive(Clone, Copy)]
pub struct Work {
    pub seals: u8,
    pub unveils: u8,
}

impl Work {
    // Nothing is sealed or unveiled yet.
    pub const NONE: Work = Work {
        seals: 0,
        unveils: 0,
    };
}

// A page could not be unveiled, since its frame does not hold its signature; with the counts so far.
#[derive(Clone, Copy)]
pub struct NotUnveiled(pub Work);

// What is Clear in frame f is sealed: nothing where the frame names no page.
pub fn seal(
    setup: Setup,
    work: Work,
    tables: &mut [u16],
    frames: &mut [u8],
    store: &mut [u8],
    supply: &[u8],
    f: Gppn,
) -> Work
    requires { Sealable setup work tables.old frames.old store.old supply.now f }
    ensures { Seals setup work tables frames store supply f result }
{
    let frame = f.0 as usize;
    // The word itself, 0 or one more than the number: names_at would divide it into a page, and page_number multiply it again.
    let named = core_tables::slot_at(tables, frame);
    if named == 0 {
        return work;
    }
    let slot = (named - 1) as usize;
    let Place::Clear(_, wear) = core_tables::place_at(tables, slot) else {
        return work;
    };
    let used = core_tables::used_at(tables);
    let k = sealed_with(used, wear);
    seal_bytes(setup.size, frames, store, supply, frame, slot, k as usize);
    core_tables::put_move(tables, setup.pages, slot, Place::Sealed(k), frame, None);
    core_tables::put_used(tables, used_after(used, wear));
    Work {
        seals: work.seals + 1,
        ..work
    }
}

// The page d, v, Sealed with signature k, is unveiled at frame f, which names none; or its domain is Stopped.
pub fn unveil(
    setup: Setup,
    work: Work,
    tables: &mut [u16],
    frames: &mut [u8],
    store: &[u8],
    supply: &[u8],
    f: Gppn,
    d: Asid,
    v: Gvpn,
    k: u16,
) -> Result<Work, NotUnveiled>
    requires { (Unveilable setup work tables.old frames.old store.now supply.now f d v) × (k < setup.signatures) }
    ensures { Unveils setup work tables frames store supply f d v k result }
{
    let slot = setup.page_number(d, v);
    let frame = f.0 as usize;
    if !unveil_bytes(setup.size, frames, store, supply, frame, slot, k as usize) {
        core_tables::put_life(tables, d.0 as usize, Life::Stopped);
        return Err(NotUnveiled(work));
    }
    core_tables::put_move(
        tables,
        setup.pages,
        slot,
        Place::Clear(f, Wear::Clean(k)),
        frame,
        Some((d, v)),
    );
    Ok(Work {
        unveils: work.unveils + 1,
        ..work
    })
}

// What is Clear in frame f is sealed; then the page d, v, if it is Sealed, is unveiled there.
fn seal_and_unveil(
    setup: Setup,
    work: Work,
    tables: &mut [u16],
    frames: &mut [u8],
    store: &mut [u8],
    supply: &[u8],
    f: Gppn,
    d: Asid,
    v: Gvpn,
) -> Result<Work, NotUnveiled>
    requires { Bringable setup work tables.old frames.old store.old supply.now f d v (f ∷ []) }
    ensures { SealsAndUnveils setup work tables frames store supply f d v result }
{
    let sealed = seal(setup, work, tables, frames, store, supply, f);
    let slot = setup.page_number(d, v);
    let Place::Sealed(k) = core_tables::place_at(tables, slot) else {
        return Ok(sealed);
    };
    unveil(setup, sealed, tables, frames, store, supply, f, d, v, k)
}

// The page d, v, mapped to frame f, is brought in: nothing where it is Clear there; else it is sealed where it is Clear,
// then what is Clear in f, and unveiled at f. Of a Public page what is Clear in f is sealed.
pub fn bring_in(
    setup: Setup,
    work: Work,
    tables: &mut [u16],
    frames: &mut [u8],
    store: &mut [u8],
    supply: &[u8],
    f: Gppn,
    d: Asid,
    v: Gvpn,
) -> Result<Work, NotUnveiled>
    requires { Bringable setup work tables.old frames.old store.old supply.now f d v
        (sealed_first f (place_of setup (tables_in setup.pages tables.old) d v)) }
    ensures { BringsIn setup work tables frames store supply f d v result }
{
    let slot = setup.page_number(d, v);
    let Place::Clear(home, _) = core_tables::place_at(tables, slot) else {
        return seal_and_unveil(setup, work, tables, frames, store, supply, f, d, v);
    };
    if home == f {
        return Ok(work);
    }
    let sealed = seal(setup, work, tables, frames, store, supply, home);
    seal_and_unveil(setup, sealed, tables, frames, store, supply, f, d, v)
}
