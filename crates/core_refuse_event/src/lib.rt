// The checks that ask no table: the event by itself, against the setup and the lengths that come with it. A function for
// each column of the rules, then the order of the checks.
#![tactic(auto)]

ghost use Rattle.std.specs.Prelude.{◌≡◌, true, ltb, OnOk};
ghost use Rattle.rules.specs.Events.{row, numbers_in, span_fits, answer_length};
ghost use Rattle.rules.specs.Answers.{first_of};
ghost use Rattle.rules.specs.Refusals.{number_in};
ghost use Rattle.rules.specs.declared.Setup.{Setup};
ghost use Rattle.rules.specs.declared.Tables.{Tables};
ghost use Rattle.core_refuse_event.specs.Stages.{by_shape};

use rules::{Event, Refusal, Setup, Span, TrapKind};

// A number is within a size.
fn below(number: u8, size: usize) -> bool
    ensures { result ≡ ltb number size }
{
    usize::from(number) < size
}

// The numbers that the event names are within the setup.
#[tactic(auto, unfolding(rules::specs::Events::numbers_in, rules::specs::Bytes::all_of), using(crate::proofs::Within::below))]
fn numbers_in(setup: Setup, event: Event) -> bool
    ensures { result ≡ numbers_in setup event }
{
    match event {
        Event::Begin(d, c) | Event::Resume(d, c) => {
            below(d.0, setup.domains) && below(c.0, setup.contexts)
        }
        Event::End(d) => below(d.0, setup.domains),
        Event::Map(d, v, f) => {
            below(d.0, setup.domains) && below(v.0, setup.pages) && below(f.0, setup.frames)
        }
        Event::Unmap(d, v) => below(d.0, setup.domains) && below(v.0, setup.pages),
        Event::KernelRead(f, _) | Event::KernelWrite(f, _) => below(f.0, setup.frames),
        Event::Spawn(c, u) => below(c.0, setup.contexts) && below(u.0, setup.contexts),
        Event::Leave(c) | Event::Trap(c, _, _) => below(c.0, setup.contexts),
        Event::Cloak(c, v) | Event::Uncloak(c, v) | Event::Read(c, v, _) | Event::Write(c, v, _) =>
            { below(c.0, setup.contexts) && below(v.0, setup.pages) }
    }
}

// The event's mask is right: an interrupt has none.
fn mask_fits(event: Event) -> bool
    ensures { (s : Setup) (t : Tables) → result ≡ (row s t event).mask }
{
    !matches!(event, Event::Trap(_, TrapKind::Interrupt, mask) if mask != 0)
}

// A span is of at least one byte and ends within the page. The sum of its numbers may be beyond a usize, and is not made.
#[tactic(auto, unfolding(rules::specs::Events::span_fits, rules::specs::Bytes::all_of), using(crate::proofs::Spans::sum_fits))]
fn span_within(setup: Setup, x: Span) -> bool
    ensures { result ≡ span_fits setup x }
{
    x.len > 0 && x.len <= setup.size && x.off <= setup.size - x.len
}

// So is the event's, where it has one.
fn span_fits(setup: Setup, event: Event) -> bool
    ensures { (t : Tables) → result ≡ (row setup t event).span }
{
    match event {
        Event::KernelRead(_, x)
        | Event::KernelWrite(_, x)
        | Event::Read(_, _, x)
        | Event::Write(_, _, x) => { span_within(setup, x) }
        _ => true,
    }
}

// How many bytes the event is answered with.
fn answer_length(event: Event) -> usize
    ensures { result ≡ answer_length event }
{
    match event {
        Event::KernelRead(_, x) | Event::Read(_, _, x) => x.len,
        Event::Resume(_, _) | Event::Trap(_, _, _) => 64,
        _ => 0,
    }
}

// The refusal by these checks, in their order. The event comes with data of length `new` and an answer buffer of length `room`.
#[tactic(auto, using(crate::proofs::Order::in_order))]
pub fn by_shape(setup: Setup, event: Event, new: usize, room: usize) -> Result<(), Refusal>
    ensures within { OnOk result (numbers_in setup event ≡ true) }
    ensures refused { (t : Tables) → number_in result ≡ first_of (by_shape setup event (row setup t event) new room) }
{
    if !mask_fits(event) {
        return Err(Refusal::NoEvent);
    }
    if !numbers_in(setup, event) {
        return Err(Refusal::OutOfRange);
    }
    if !(span_fits(setup, event) && new == event.data_length()) {
        return Err(Refusal::BadLength);
    }
    if room < answer_length(event) {
        return Err(Refusal::NoRoom);
    }
    Ok(())
}
