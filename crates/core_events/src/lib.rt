// An event that is granted is done: each of document 01's fourteen by the function of its name.
#![tactic(auto)]

ghost use Rattle.core_answer.specs.Lending.{handed_in, left_by};
ghost use Rattle.core_answer.specs.Promises.{Granted, Steps};

use core_answer::{Given, Lent};
use core_events_application::contexts::{leave, spawn, trap};
use core_events_application::pages::{cloak, read, uncloak, write};
use core_events_kernel::{begin, end, kernel_read, kernel_write, map, resume, unmap};
use rules::{Answer, Event, Event as E};

// The event is done, and what it leaves is answered.
pub fn perform(given: Given<'_>, lent: Lent<'_>, event: Event) -> Answer
    requires { Granted (handed_in given lent event) }
    ensures { Steps (handed_in given.entry lent.entry event) (left_by result lent.exit) }
{
    // Taken apart once: each event's function borrows a part by itself, and shared where the event leaves that part alone.
    let Lent {
        tables,
        saved,
        frames,
        store,
        answer,
    } = lent;
    match event {
        E::Begin(d, c) => begin(given, tables, saved, frames, store, answer, d, c),
        E::End(d) => end(given, tables, saved, frames, store, answer, d),
        E::Map(d, v, f) => map(given, tables, saved, frames, store, answer, d, v, f),
        E::Unmap(d, v) => unmap(given, tables, saved, frames, store, answer, d, v),
        E::KernelRead(f, span) => kernel_read(given, tables, saved, frames, store, answer, f, span),
        E::KernelWrite(f, span) => kernel_write(
            given, tables, saved, frames, store, answer, f, span,
        ),
        E::Resume(d, c) => resume(given, tables, saved, frames, store, answer, d, c),
        E::Spawn(c, u) => spawn(given, tables, saved, frames, store, answer, c, u),
        E::Leave(c) => leave(given, tables, saved, frames, store, answer, c),
        E::Cloak(c, v) => cloak(given, tables, saved, frames, store, answer, c, v),
        E::Uncloak(c, v) => uncloak(given, tables, saved, frames, store, answer, c, v),
        E::Read(c, v, span) => read(given, tables, saved, frames, store, answer, c, v, span),
        E::Write(c, v, span) => write(given, tables, saved, frames, store, answer, c, v, span),
        E::Trap(c, kind, mask) => trap(given, tables, saved, frames, store, answer, c, kind, mask),
    }
}
