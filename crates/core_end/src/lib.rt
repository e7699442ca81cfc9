// Kind 1, end: a domain's frames and slots become zero, its pages Public and unmapped, its contexts Free, and it is Empty.
#![tactic(auto)]

ghost use Rattle.std.specs.Prelude.{◌≡◌, cond, map, ℕ, ◌+◌, ◌*◌, ◌<◌, ◌≤◌, T, length, get_or, set, replicate, Option};
ghost use Rattle.std.proofs.lemmas.List.Edits.{sets};
ghost use Rattle.rules.specs.Bytes.{map_from, with_part, zeros};
ghost use Rattle.rules.specs.Records.{machine, public_page, open_frame, zero_registers, is_in, names_in};
ghost use Rattle.rules.specs.Events.{zero_named, ended};
ghost use Rattle.rules.specs.Sizes.{max_pages, max_contexts, max_frames};
ghost use Rattle.core_tables.specs.Image.{image_words, max_entries, tables_in, saved_in, state_in, Canonical};
ghost use Rattle.core_tables.specs.Put.{Put, set_names};
ghost use Rattle.core_tables.specs.Words.{names_word, NamesFit};
ghost use Rattle.core_seal.specs.Under.{Leaves};
ghost use Rattle.core_end.specs.Ending.{freed_of, opened_of, cleared_of, with_contexts, with_pages, with_frames, NamedFit, Endable};

use rules::{Activity, Asid, Gvpn, Life, PageRecord, Place, Setup};

// Whether a context is Running or Kept in domain d.
fn is_in(activity: Activity, d: Asid) -> bool
    ensures { result ≡ is_in d activity }
{
    matches!(activity, Activity::Running(e) | Activity::Kept(e, _) if e == d)
}

// Whether a frame names a page of domain d, by one more than that page's number among all, or 0: with no division. The word stays
// as slot_at gives it: as an Option it would take the division that core_tables::names_at makes, once for each frame.
fn names_in(named: u16, pages: usize, d: Asid) -> bool
    requires { pages ≤ max_pages }
    ensures { (names : Option (Asid × Gvpn)) → NamesFit pages names → named ≡ names_word pages names → result ≡ names_in d names }
{
    let first = (d.0 as usize) * pages;
    let n = named as usize;
    first < n && n <= first + pages
}

// The contexts that were in domain d become Free. By number, here and below: the loop changes the words that it reads.
fn free_contexts(tables: &mut [u16], d: Asid)
    requires { length tables.old ≡ image_words }
    ensures { (v : ℕ) → Put v tables.old tables.new
        (with_contexts (map (freed_of d) (tables_in v tables.old).contexts) (tables_in v tables.old)) }
{
    for i in 0..Setup::MAX_CONTEXTS {
        if is_in(core_tables::activity_at(tables, i), d) {
            core_tables::put_activity(tables, i, Activity::Free);
        }
    }
}

// The frames that named a page of domain d name none.
fn open_frames(tables: &mut [u16], pages: usize, d: Asid)
    requires { (length tables.old ≡ image_words) × (1 ≤ pages) × (pages ≤ max_pages) × Canonical pages tables.old }
    ensures { Put pages tables.old tables.new
        (with_frames (map (opened_of d) (tables_in pages tables.old).frames) (tables_in pages tables.old)) }
{
    for i in 0..Setup::MAX_FRAMES {
        if names_in(core_tables::slot_at(tables, i), pages, d) {
            core_tables::put_names(tables, pages, i, None);
        }
    }
}

// Pages first to first + count become Public and unmapped.
fn publish_pages(tables: &mut [u16], first: usize, count: usize)
    requires { (length tables.old ≡ image_words) × (first + count ≤ max_entries) }
    ensures { (v : ℕ) → Put v tables.old tables.new
        (with_pages (sets (tables_in v tables.old).pages first (replicate count public_page))
        (tables_in v tables.old)) }
{
    let page = PageRecord {
        mapping: None,
        place: Place::Public,
    };
    for i in first..first + count {
        core_tables::put_page(tables, i, page);
    }
}

// The registers of the contexts that were in domain d become zero; there are n contexts.
fn clear_saved(tables: &[u16], saved: &mut [u64], n: usize, d: Asid)
    requires { (length tables.now ≡ image_words) × (length saved.old ≡ 8 * n) × (n ≤ max_contexts) }
    ensures { (v : ℕ) → saved_in n saved.new
        ≡ map_from (cleared_of d (tables_in v tables.now).contexts) 0 (saved_in n saved.old) }
{
    for i in 0..n {
        if is_in(core_tables::activity_at(tables, i), d) {
            core_tables::saved::clear_saved(saved, n, i);
        }
    }
}

// Every frame that names a page of domain d becomes zero.
fn zero_frames(setup: Setup, tables: &[u16], d: Asid, frames: &mut [u8])
    requires { (length tables.now ≡ image_words) × (1 ≤ setup.pages) × (setup.pages ≤ max_pages)
        × (Canonical setup.pages tables.now)
        × (NamedFit setup d (tables_in setup.pages tables.now).frames (length frames.old)) }
    ensures { frames.new ≡ zero_named setup d 0 (tables_in setup.pages tables.now).frames
        frames.old }
{
    for k in 0..Setup::MAX_FRAMES {
        if names_in(core_tables::slot_at(tables, k), setup.pages, d) {
            core_bytes::zero_page(frames, setup.size, k);
        }
    }
}

// Domain d ends: all that was its own is gone from records, registers, frames and store.
pub fn end(
    setup: Setup,
    tables: &mut [u16],
    saved: &mut [u64],
    frames: &mut [u8],
    store: &mut [u8],
    d: Asid,
)
    requires { Endable setup d tables.old (length saved.old) (length frames.old) (length store.old) }
    ensures { Leaves setup.pages tables.old tables.new
        (machine (state_in setup tables.new saved.new) frames.new store.new)
        (ended setup d (machine (state_in setup tables.old saved.old) frames.old store.old)) }
{
    zero_frames(setup, tables, d, frames);
    let slots = setup.pages * setup.size;
    let at = d.0 as usize;
    core_bytes::zero_page(store, slots, at);
    clear_saved(tables, saved, setup.contexts, d);
    free_contexts(tables, d);
    open_frames(tables, setup.pages, d);
    publish_pages(tables, at * setup.pages, setup.pages);
    core_tables::put_life(tables, at, Life::Empty);
}
