// The kernel's events, kinds 0 to 6, each once it is granted: what document 01's table says that it does.
// Each asks that the rules do not refuse the event, and leaves what the rules leave.
// The lent parts come one by one and not as a `Lent`, so that those that an event leaves alone are borrowed shared.
#![tactic(auto)]

ghost use Rattle.core_answer.specs.Handed.{left};
ghost use Rattle.core_answer.specs.Lending.{handed_with};
ghost use Rattle.core_answer.specs.Promises.{Granted, Steps};

use core_answer::Given;
use core_seal::Work;
use rules::{Activity, Answer, Asid, Ctc, Event, Gppn, Gvpn, Life, Span};

// Kind 0: domain d begins, with context c Running in it.
pub fn begin(
    given: Given<'_>,
    tables: &mut [u16],
    saved: &[u64],
    frames: &[u8],
    store: &[u8],
    answer: &[u8],
    d: Asid,
    c: Ctc,
) -> Answer
    requires { Granted (handed_with given tables.old saved.now frames.now store.now answer.now (Event.Begin d c)) }
    ensures { Steps (handed_with given.entry tables.old saved.now frames.now store.now answer.now (Event.Begin d c))
        (left result tables.new saved.now frames.now store.now answer.now) }
{
    core_tables::put_life(tables, d.0 as usize, Life::Live);
    core_tables::put_activity(tables, c.0 as usize, Activity::Running(d));
    core_answer::told(tables, Answer::DONE, 0, 0)
}

// Kind 1: domain d ends.
pub fn end(
    given: Given<'_>,
    tables: &mut [u16],
    saved: &mut [u64],
    frames: &mut [u8],
    store: &mut [u8],
    answer: &[u8],
    d: Asid,
) -> Answer
    requires { Granted (handed_with given tables.old saved.old frames.old store.old answer.now (Event.End d)) }
    ensures { Steps (handed_with given.entry tables.old saved.old frames.old store.old answer.now (Event.End d))
        (left result tables.new saved.new frames.new store.new answer.now) }
{
    let setup = given.setup;
    core_end::end(setup, tables, saved, frames, store, d);
    core_answer::told(tables, Answer::DONE, 0, 0) // what was private is zeroed and not sealed
}

// Kind 2: page v of domain d is mapped to frame f, whatever it was mapped to.
pub fn map(
    given: Given<'_>,
    tables: &mut [u16],
    saved: &[u64],
    frames: &[u8],
    store: &[u8],
    answer: &[u8],
    d: Asid,
    v: Gvpn,
    f: Gppn,
) -> Answer
    requires { Granted (handed_with given tables.old saved.now frames.now store.now answer.now (Event.Map d v f)) }
    ensures { Steps (handed_with given.entry tables.old saved.now frames.now store.now answer.now (Event.Map d v f))
        (left result tables.new saved.now frames.now store.now answer.now) }
{
    let setup = given.setup;
    let number = setup.page_number(d, v);
    core_tables::put_mapping(tables, number, Some(f));
    core_answer::told(tables, Answer::DONE, 0, 0)
}

// Kind 3: page v of domain d is mapped to no frame any more. A function of its own, as each kind has one, and not map's with an Option.
pub fn unmap(
    given: Given<'_>,
    tables: &mut [u16],
    saved: &[u64],
    frames: &[u8],
    store: &[u8],
    answer: &[u8],
    d: Asid,
    v: Gvpn,
) -> Answer
    requires { Granted (handed_with given tables.old saved.now frames.now store.now answer.now (Event.Unmap d v)) }
    ensures { Steps (handed_with given.entry tables.old saved.now frames.now store.now answer.now (Event.Unmap d v))
        (left result tables.new saved.now frames.now store.now answer.now) }
{
    let setup = given.setup;
    let number = setup.page_number(d, v);
    core_tables::put_mapping(tables, number, None);
    core_answer::told(tables, Answer::DONE, 0, 0)
}

// Kind 4: what is Clear in frame f is sealed, and the span's bytes are given.
pub fn kernel_read(
    given: Given<'_>,
    tables: &mut [u16],
    saved: &[u64],
    frames: &mut [u8],
    store: &mut [u8],
    answer: &mut [u8],
    f: Gppn,
    span: Span,
) -> Answer
    requires { Granted (handed_with given tables.old saved.now frames.old store.old answer.old (Event.KernelRead f span)) }
    ensures { Steps (handed_with given.entry tables.old saved.now frames.old store.old answer.old (Event.KernelRead f span))
        (left result tables.new saved.now frames.new store.new answer.new) }
{
    let setup = given.setup;
    let sealed = core_seal::seal(setup, Work::NONE, tables, frames, store, given.supply, f);
    core_bytes::give_span(frames, setup.size, f.0 as usize, span.off, span.len, answer);
    core_answer::told(tables, Answer::DONE, sealed.seals, sealed.unveils)
}

// Kind 5: what is Clear in frame f is sealed, and the data stored at the span.
pub fn kernel_write(
    given: Given<'_>,
    tables: &mut [u16],
    saved: &[u64],
    frames: &mut [u8],
    store: &mut [u8],
    answer: &[u8],
    f: Gppn,
    span: Span,
) -> Answer
    requires { Granted (handed_with given tables.old saved.now frames.old store.old answer.now (Event.KernelWrite f span)) }
    ensures { Steps (handed_with given.entry tables.old saved.now frames.old store.old answer.now (Event.KernelWrite f span))
        (left result tables.new saved.now frames.new store.new answer.now) }
{
    let setup = given.setup;
    let sealed = core_seal::seal(setup, Work::NONE, tables, frames, store, given.supply, f);
    core_bytes::put_span(frames, setup.size, f.0 as usize, span.off, given.data);
    core_answer::told(tables, Answer::DONE, sealed.seals, sealed.unveils)
}

// Kind 6: context c runs again in domain d, and is given its registers; they are kept no longer.
pub fn resume(
    given: Given<'_>,
    tables: &mut [u16],
    saved: &mut [u64],
    frames: &[u8],
    store: &[u8],
    answer: &mut [u8],
    d: Asid,
    c: Ctc,
) -> Answer
    requires { Granted (handed_with given tables.old saved.old frames.now store.now answer.old (Event.Resume d c)) }
    ensures { Steps (handed_with given.entry tables.old saved.old frames.now store.now answer.old (Event.Resume d c))
        (left result tables.new saved.new frames.now store.now answer.new) }
{
    let setup = given.setup;
    let context = c.0 as usize;
    let activity = core_tables::activity_at(tables, context);
    let registers = core_tables::saved::registers_at(saved, setup.contexts, context);
    let x = core_registers::word(given.data);
    let given = core_registers::resumed(activity, x, registers);
    core_registers::give(given, answer);
    core_tables::put_activity(tables, context, Activity::Running(d));
    core_tables::saved::clear_saved(saved, setup.contexts, context);
    core_answer::told(tables, Answer::DONE, 0, 0)
}
