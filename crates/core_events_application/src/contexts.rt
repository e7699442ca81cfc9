// Kinds 7, 8 and 13: what a context does to itself and to others of its domain. It spawns another, leaves, or traps into the kernel.
ghost use Rattle.core_answer.specs.Handed.{left};
ghost use Rattle.core_answer.specs.Lending.{handed_with};
ghost use Rattle.core_answer.specs.Promises.{Granted, Steps};

use core_answer::Given;
use rules::{Activity, Answer, Ctc, Event, TrapKind};

// Kind 7: context u runs in context c's domain too.
pub fn spawn(
    given: Given<'_>,
    tables: &mut [u16],
    saved: &[u64],
    frames: &[u8],
    store: &[u8],
    answer: &[u8],
    c: Ctc,
    u: Ctc,
) -> Answer
    requires { Granted (handed_with given tables.old saved.now frames.now store.now answer.now (Event.Spawn c u)) }
    ensures { Steps (handed_with given.entry tables.old saved.now frames.now store.now answer.now (Event.Spawn c u))
        (left result tables.new saved.now frames.now store.now answer.now) }
{
    let activity = core_tables::activity_at(tables, c.0 as usize);
    let d = activity.domain();
    core_tables::put_activity(tables, u.0 as usize, Activity::Running(d));
    core_answer::told(tables, Answer::DONE, 0, 0)
}

// Kind 8: context c is Free.
pub fn leave(
    given: Given<'_>,
    tables: &mut [u16],
    saved: &mut [u64],
    frames: &[u8],
    store: &[u8],
    answer: &[u8],
    c: Ctc,
) -> Answer
    requires { Granted (handed_with given tables.old saved.old frames.now store.now answer.now (Event.Leave c)) }
    ensures { Steps (handed_with given.entry tables.old saved.old frames.now store.now answer.now (Event.Leave c))
        (left result tables.new saved.new frames.now store.now answer.now) }
{
    let setup = given.setup;
    let context = c.0 as usize;
    core_tables::put_activity(tables, context, Activity::Free);
    core_tables::saved::clear_saved(saved, setup.contexts, context);
    core_answer::told(tables, Answer::DONE, 0, 0)
}

// Kind 13: context c is Kept with its registers, and those that the trap shows are given, the others as zero.
pub fn trap(
    given: Given<'_>,
    tables: &mut [u16],
    saved: &mut [u64],
    frames: &[u8],
    store: &[u8],
    answer: &mut [u8],
    c: Ctc,
    kind: TrapKind,
    mask: u8,
) -> Answer
    requires { Granted (handed_with given tables.old saved.old frames.now store.now answer.old (Event.Trap c kind mask)) }
    ensures { Steps (handed_with given.entry tables.old saved.old frames.now store.now answer.old (Event.Trap c kind mask))
        (left result tables.new saved.new frames.now store.now answer.new) }
{
    let setup = given.setup;
    let context = c.0 as usize;
    let activity = core_tables::activity_at(tables, context);
    let d = activity.domain();
    let registers = core_registers::load(given.data);
    let shown = core_registers::shown(kind, mask, registers);
    core_registers::give(shown, answer);
    core_tables::put_activity(tables, context, Activity::Kept(d, kind));
    let words = registers.words;
    core_tables::saved::put_saved(saved, setup.contexts, context, &words);
    core_answer::told(tables, Answer::DONE, 0, 0)
}
