// A context's events on its domain's own pages, kinds 9 to 12: cloak, uncloak, read and write.
ghost use Rattle.std.specs.Prelude.{◌≡◌, ℕ, ◌<◌, length};
ghost use Rattle.core_tables.specs.Image.{image_words, max_entries, tables_in};
ghost use Rattle.core_tables.specs.Put.{Put};
ghost use Rattle.core_answer.specs.Handed.{left};
ghost use Rattle.core_answer.specs.Lending.{handed_with};
ghost use Rattle.core_answer.specs.Promises.{Granted, Steps};
ghost use Rattle.core_events_application.specs.OwnPages.{Owned, own_of, Openable, Opened, written_tables};

use core_answer::Given;
use core_seal::{NotUnveiled, Work};
use rules::{Answer, Asid, Ctc, Event, Gppn, Gvpn, Place, Refusal, Setup, Span, Wear};

// Of a context's own page: its domain, the frame that it is mapped to, and its number among all.
#[derive(Clone, Copy)]
pub struct Own {
    pub domain: Asid,
    pub frame: Gppn,
    pub number: usize,
}

// What the tables say of page v of context c's domain.
fn own_page(setup: Setup, tables: &[u16], c: Ctc, v: Gvpn) -> Own
    requires { Owned setup tables.now c v }
    ensures { result ≡ own_of setup (tables_in setup.pages tables.now) c v }
{
    let activity = core_tables::activity_at(tables, c.0 as usize);
    let domain = activity.domain();
    let number = setup.page_number(domain, v);
    let mapping = core_tables::mapping_at(tables, number);
    Own {
        domain,
        frame: mapping.unwrap_or(Gppn(0)),
        number,
    }
}

// The frame in which a page is Clear becomes zero and names none.
fn open_home(setup: Setup, tables: &mut [u16], frames: &mut [u8], place: Place)
    requires { Openable setup tables.old frames.old place }
    ensures { Opened setup place tables.old frames.old tables.new frames.new }
{
    let Place::Clear(f, _) = place else {
        return;
    };
    core_bytes::zero_page(frames, setup.size, f.0 as usize);
    core_tables::put_names(tables, setup.pages, f.0 as usize, None);
}

// The page of this number was written: a private one is dirty, even where the bytes are those that stood there.
fn mark_dirty(tables: &mut [u16], number: usize)
    requires { (length tables.old ≡ image_words) × (number < max_entries) }
    ensures { (v : ℕ) → Put v tables.old tables.new
        (written_tables number (tables_in v tables.old)) }
{
    let place = core_tables::place_at(tables, number);
    let Place::Clear(home, _) = place else {
        return;
    };
    core_tables::put_place(tables, number, Place::Clear(home, Wear::Dirty));
}

// Kind 9: what is Clear in the mapped frame is sealed, the frame becomes zero, and the page Clear there, dirty.
pub fn cloak(
    given: Given<'_>,
    tables: &mut [u16],
    saved: &[u64],
    frames: &mut [u8],
    store: &mut [u8],
    answer: &[u8],
    c: Ctc,
    v: Gvpn,
) -> Answer
    requires { Granted (handed_with given tables.old saved.now frames.old store.old answer.now (Event.Cloak c v)) }
    ensures { Steps (handed_with given.entry tables.old saved.now frames.old store.old answer.now (Event.Cloak c v))
        (left result tables.new saved.now frames.new store.new answer.now) }
{
    let setup = given.setup;
    let own = own_page(setup, tables, c, v);
    let f = own.frame;
    let d = own.domain;
    let sealed = core_seal::seal(setup, Work::NONE, tables, frames, store, given.supply, f);
    let frame = f.0 as usize;
    core_bytes::zero_page(frames, setup.size, frame);
    core_tables::put_move(
        tables,
        setup.pages,
        own.number,
        Place::Clear(f, Wear::Dirty),
        frame,
        Some((d, v)),
    );
    core_answer::told(tables, Answer::DONE, sealed.seals, sealed.unveils)
}

// Kind 10: the frame in which the page is Clear, and its slot, become zero, and the page Public.
pub fn uncloak(
    given: Given<'_>,
    tables: &mut [u16],
    saved: &[u64],
    frames: &mut [u8],
    store: &mut [u8],
    answer: &[u8],
    c: Ctc,
    v: Gvpn,
) -> Answer
    requires { Granted (handed_with given tables.old saved.now frames.old store.old answer.now (Event.Uncloak c v)) }
    ensures { Steps (handed_with given.entry tables.old saved.now frames.old store.old answer.now (Event.Uncloak c v))
        (left result tables.new saved.now frames.new store.new answer.now) }
{
    let setup = given.setup;
    let own = own_page(setup, tables, c, v);
    let number = own.number;
    let place = core_tables::place_at(tables, number);
    open_home(setup, tables, frames, place);
    core_bytes::zero_page(store, setup.size, number);
    core_tables::put_place(tables, number, Place::Public);
    core_answer::told(tables, Answer::DONE, 0, 0)
}

// Kind 11: a private page is brought in and its bytes given; of a Public one the mapped frame's, as the kernel is given them.
pub fn read(
    given: Given<'_>,
    tables: &mut [u16],
    saved: &[u64],
    frames: &mut [u8],
    store: &mut [u8],
    answer: &mut [u8],
    c: Ctc,
    v: Gvpn,
    span: Span,
) -> Answer
    requires { Granted (handed_with given tables.old saved.now frames.old store.old answer.old (Event.Read c v span)) }
    ensures { Steps (handed_with given.entry tables.old saved.now frames.old store.old answer.old (Event.Read c v span))
        (left result tables.new saved.now frames.new store.new answer.new) }
{
    let setup = given.setup;
    let own = own_page(setup, tables, c, v);
    let f = own.frame;
    let d = own.domain;
    let work = Work::NONE;
    let to_read = core_seal::bring_in(setup, work, tables, frames, store, given.supply, f, d, v);
    match to_read {
        Ok(made) => {
            core_bytes::give_span(frames, setup.size, f.0 as usize, span.off, span.len, answer);
            core_answer::told(tables, Answer::DONE, made.seals, made.unveils)
        }
        Err(NotUnveiled(made)) => {
            let number = u8::from(Refusal::NotUnveiled);
            core_answer::told(tables, number, made.seals, made.unveils)
        }
    }
}

// Kind 12: a private page is brought in, the data stored, and the page dirty; on a Public one the data goes to the mapped frame.
pub fn write(
    given: Given<'_>,
    tables: &mut [u16],
    saved: &[u64],
    frames: &mut [u8],
    store: &mut [u8],
    answer: &[u8],
    c: Ctc,
    v: Gvpn,
    span: Span,
) -> Answer
    requires { Granted (handed_with given tables.old saved.now frames.old store.old answer.now (Event.Write c v span)) }
    ensures { Steps (handed_with given.entry tables.old saved.now frames.old store.old answer.now (Event.Write c v span))
        (left result tables.new saved.now frames.new store.new answer.now) }
{
    let setup = given.setup;
    let own = own_page(setup, tables, c, v);
    let f = own.frame;
    let d = own.domain;
    let work = Work::NONE;
    let to_write = core_seal::bring_in(setup, work, tables, frames, store, given.supply, f, d, v);
    match to_write {
        Ok(made) => {
            core_bytes::put_span(frames, setup.size, f.0 as usize, span.off, given.data);
            mark_dirty(tables, own.number);
            core_answer::told(tables, Answer::DONE, made.seals, made.unveils)
        }
        Err(NotUnveiled(made)) => {
            let number = u8::from(Refusal::NotUnveiled);
            core_answer::told(tables, number, made.seals, made.unveils)
        }
    }
}
