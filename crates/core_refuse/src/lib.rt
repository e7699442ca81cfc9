// Why an event is refused, before anything moves: the rules' checks 1, 2, 3, 11, 4, 7, 5 and 6, in that order. (10 is
// tested before, and 8 comes of doing the event.)
#![tactic(auto)]

ghost use Rattle.std.specs.Prelude.{◌≡◌};
ghost use Rattle.rules.specs.Events.{row};
ghost use Rattle.rules.specs.Answers.{first_of, checks};
ghost use Rattle.rules.specs.Refusals.{number_in};
ghost use Rattle.core_tables.specs.Image.{tables_in};
ghost use Rattle.core_tables.specs.Tested.{Tested};

mod standing;

use rules::{Event, Refusal, Setup};

// Why the event is refused, if it is. It comes with data of length `new` and an answer buffer of length `room`.
#[tactic(auto, unfolding(rules::specs::Events::numbers_in, rules::specs::Bytes::all_of), using(crate::proofs::Stages::in_stages))]
pub fn refusal(
    setup: Setup,
    tables: &[u16],
    event: Event,
    new: usize,
    room: usize,
) -> Result<(), Refusal>
    requires { Tested setup tables.now }
    ensures { number_in result ≡ first_of (checks setup (tables_in setup.pages tables.now) event
        (row setup (tables_in setup.pages tables.now) event) new room) }
{
    core_refuse_event::by_shape(setup, event, new, room)?;
    match event {
        Event::Begin(d, c) => standing::begin(setup, tables, d, c),
        Event::End(d) | Event::Map(d, _, _) => standing::end(setup, tables, d),
        Event::Unmap(d, v) => standing::unmap(setup, tables, d, v),
        Event::KernelRead(f, _) | Event::KernelWrite(f, _) => standing::kernel(setup, tables, f),
        Event::Resume(d, c) => standing::resume(setup, tables, d, c),
        Event::Spawn(c, u) => standing::spawn(setup, tables, c, u),
        Event::Leave(c) | Event::Trap(c, _, _) => standing::leave(setup, tables, c),
        Event::Cloak(c, v) => standing::cloak(setup, tables, c, v),
        Event::Uncloak(c, v) => standing::uncloak(setup, tables, c, v),
        Event::Read(c, v, _) | Event::Write(c, v, _) => standing::touch(setup, tables, c, v),
    }
}
