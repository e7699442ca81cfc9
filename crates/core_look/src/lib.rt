// The inspector's look at a private page, and the question beside it that gives the number. A look hands back the very part
// of the frames or of the store that holds the page's bytes, and changes nothing.
#![tactic(auto)]

ghost use Rattle.std.specs.Prelude.{◌≡◌, ◌+◌, ◌*◌, ◌≤◌, length, IfOk};
ghost use Rattle.rules.specs.Bytes.{part};
ghost use Rattle.rules.specs.Records.{place_of};
ghost use Rattle.rules.specs.Refusals.{number_in};
ghost use Rattle.core_tables.specs.Image.{tables_in};
ghost use Rattle.core_look.specs.Look.{past, look_number, NumberOf, Shows};

use rules::{Asid, Gvpn, Place, Refusal, Setup};

// Where a private page's bytes are, or why a look at it is refused.
#[tactic(auto, using(crate::proofs::Within::checked))]
fn private_place(
    setup: Setup,
    tables: &[u16],
    saved: &[u64],
    frames: &[u8],
    store: &[u8],
    domain: Asid,
    page: Gvpn,
) -> Result<Place, Refusal>
    ensures answers { number_in result ≡ look_number setup tables.now saved.now frames.now store.now domain page }
    ensures found { IfOk result (λ p. p ≡ place_of setup (tables_in setup.pages tables.now) domain page) }
{
    if !core_accept::lookable(setup, tables, saved, frames, store) {
        return Err(Refusal::NotAcceptable);
    }
    if usize::from(domain.0) >= setup.domains || usize::from(page.0) >= setup.pages {
        return Err(Refusal::OutOfRange);
    }
    match core_tables::place_at(tables, setup.page_number(domain, page)) {
        Place::Public => Err(Refusal::WrongCondition),
        place => Ok(place),
    }
}

// The number that a look is answered with: 0 where it hands back the page's bytes, else 10, 2 or 4. A number, as `NumberOf` of
// the entry point's promise is.
pub fn look_number(
    setup: Setup,
    tables: &[u16],
    saved: &[u64],
    frames: &[u8],
    store: &[u8],
    domain: Asid,
    page: Gvpn,
) -> u8
    ensures { result ≡ NumberOf setup tables saved frames store domain page }
{
    match private_place(setup, tables, saved, frames, store, domain, page) {
        Ok(_) => 0,
        Err(refusal) => refusal.into(),
    }
}

// Part k of bytes that are cut into parts of size bytes each, where it stands: `core_bytes::page` does not promise the place.
fn part_of<'a>(bytes: &'a [u8], size: usize, k: usize) -> &'a [u8]
    requires { k * size + size ≤ length bytes.now }
    ensures holds { result.now ≡ part size k bytes.now }
    ensures stands { result.ref_ptr ≡ past (k * size) bytes.entry.ref_ptr }
{
    let start = k * size;
    &bytes[start..start + size]
}

// The part that holds a private page's bytes: of the frames where it is Clear, of the store where it is Sealed. An empty
// part where the look is refused.
pub fn look<'a>(
    setup: Setup,
    tables: &[u16],
    saved: &[u64],
    frames: &'a [u8],
    store: &'a [u8],
    domain: Asid,
    page: Gvpn,
) -> &'a [u8]
    ensures { Shows setup tables saved frames store domain page result }
{
    let Ok(place) = private_place(setup, tables, saved, frames, store, domain, page) else {
        return &frames[0..0];
    };
    match place {
        Place::Public => &frames[0..0],
        Place::Clear(frame, _) => part_of(frames, setup.size, usize::from(frame.0)),
        Place::Sealed(_) => part_of(store, setup.size, setup.page_number(domain, page)),
    }
}
