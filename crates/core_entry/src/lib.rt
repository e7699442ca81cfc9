// The entry points of the core. Each tests what it is given: whatever that is, the answer and every word and byte left are the ones that
// the rules give. What is lent comes slice by slice and of any length: a type that knew the lengths would ask what these test.
#![tactic(auto)]

ghost use Rattle.std.specs.Prelude.{◌≡◌};
ghost use Rattle.core_answer.specs.Handed.{handed, left};
ghost use Rattle.core_answer.specs.Promises.{Steps};
ghost use Rattle.core_look.specs.Look.{NumberOf, Shows};
ghost use Rattle.core_entry.specs.Started.{Starts};

use core_answer::{Given, Lent};
use rules::{Answer, Asid, Event, Gvpn, Refusal, Setup};

// Fresh tables and saved registers, and the lent frames and store zero; or, refused with 10, the same fresh words, and no byte changed.
#[tactic(auto, unfolding(crate::specs::Started::started))]
pub fn start(
    setup: Setup,
    tables: &mut [u16],
    saved: &mut [u64],
    frames: &mut [u8],
    store: &mut [u8],
    supply: &[u8],
) -> Answer
    ensures { Starts setup tables saved frames store supply result }
{
    let taken = core_accept::startable(setup, tables, saved, frames, store, supply);
    core_tables::zero(tables);
    core_tables::saved::zero(saved);
    let number = if taken {
        core_bytes::zero(frames);
        core_bytes::zero(store);
        Answer::DONE
    } else {
        Refusal::NotAcceptable.into()
    };
    Answer {
        number,
        seals: 0,
        unveils: 0,
        used: 0,
    }
}

// One event: the answer; tables, saved registers, frames, store and answer buffer are as the rules leave them.
pub fn step(
    setup: Setup,
    tables: &mut [u16],
    saved: &mut [u64],
    frames: &mut [u8],
    store: &mut [u8],
    supply: &[u8],
    event: Event,
    data: &[u8],
    answer: &mut [u8],
) -> Answer
    ensures { Steps (handed setup tables.old saved.old frames.old store.old supply.now event «data».now answer.old)
        (left result tables.new saved.new frames.new store.new answer.new) }
{
    if !core_accept::acceptable(setup, tables, saved, frames, store, supply) {
        return core_answer::refused(tables, Refusal::NotAcceptable.into());
    }
    if let Err(refusal) = core_refuse::refusal(setup, tables, event, data.len(), answer.len()) {
        return core_answer::refused(tables, refusal.into());
    }
    let given = Given {
        setup,
        supply,
        data,
    };
    let lent = Lent {
        tables,
        saved,
        frames,
        store,
        answer,
    };
    core_events::perform(given, lent, event)
}

// The inspector's look at a private page: the part of the frames (Clear) or of the store (Sealed) that holds its bytes, itself and not
// a copy; an empty part where it is refused.
pub fn look<'a>(
    setup: Setup,
    tables: &[u16],
    saved: &[u64],
    frames: &'a [u8],
    store: &'a [u8],
    domain: Asid,
    page: Gvpn,
) -> &'a [u8]
    ensures { Shows setup tables saved frames store domain page result }
{
    core_look::look(setup, tables, saved, frames, store, domain, page)
}

// The question beside the look: the number that it is answered with, 0, 10, 2 or 4.
pub fn look_number(
    setup: Setup,
    tables: &[u16],
    saved: &[u64],
    frames: &[u8],
    store: &[u8],
    domain: Asid,
    page: Gvpn,
) -> u8
    ensures { result ≡ NumberOf setup tables saved frames store domain page }
{
    core_look::look_number(setup, tables, saved, frames, store, domain, page)
}
