// The test of what a caller hands in, answer 10: the setup, the lent lengths, and the words of the tables. A caller may hand in
// anything, so nothing is asked: the result is the rules' for every setup and all that is lent.
#![tactic(auto)]

ghost use Rattle.std.specs.Prelude.{◌≡◌};
ghost use Rattle.core_accept.specs.Acceptable.{lent_right, startable_in, lookable_in, acceptable_in};

use rules::Setup;

// Whether the setup is in range, and as many words and bytes are lent as it asks.
#[tactic(auto, using(crate::proofs::Handed::lengths))]
fn lent(setup: Setup, tables: &[u16], saved: &[u64], frames: &[u8], store: &[u8]) -> bool
    ensures { result ≡ lent_right setup tables.now saved.now frames.now store.now }
{
    setup.in_range()
        && tables.len() == core_tables::WORDS
        && saved.len() == 8 * setup.contexts
        && frames.len() == setup.frames * setup.size
        && store.len() == setup.domains * setup.pages * setup.size
}

// Whether a start is taken: the setup is in range and all is lent as it asks.
#[tactic(auto, unfolding(rules::specs::Sizes::supply_right), using(crate::proofs::Handed::lent_products))]
pub fn startable(
    setup: Setup,
    tables: &[u16],
    saved: &[u64],
    frames: &[u8],
    store: &[u8],
    supply: &[u8],
) -> bool
    ensures { result ≡ startable_in setup tables.now saved.now frames.now store.now supply.now }
{
    lent(setup, tables, saved, frames, store) && supply.len() == setup.signatures * setup.size
}

// Whether the inspector may look: all that answer 10 is about, but for the supply, which a look is not lent.
#[tactic(auto, using(crate::proofs::Handed::lookable_by, crate::proofs::Handed::long_words))]
pub fn lookable(setup: Setup, tables: &[u16], saved: &[u64], frames: &[u8], store: &[u8]) -> bool
    ensures { result ≡ lookable_in setup tables.now saved.now frames.now store.now }
{
    lent(setup, tables, saved, frames, store) && core_sound::sound(setup, tables)
}

// Whether an event is taken at all: all that answer 10 is about.
#[tactic(auto, unfolding(rules::specs::Sizes::supply_right), using(crate::proofs::Handed::accepted))]
pub fn acceptable(
    setup: Setup,
    tables: &[u16],
    saved: &[u64],
    frames: &[u8],
    store: &[u8],
    supply: &[u8],
) -> bool
    ensures { result ≡ acceptable_in setup tables.now saved.now frames.now store.now supply.now }
{
    lookable(setup, tables, saved, frames, store) && supply.len() == setup.signatures * setup.size
}
