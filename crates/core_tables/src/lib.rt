// The lent tables: words of 16 bits at fixed places, each "0 none, n + 1". A record is read into the value that the rules
// speak of, and written back from it; nothing else is touched. The saved registers are lent apart, eight words a context.
//
// The tables are a slice, and each clause says that it is as long as an image. An array's reference would say it in its type, but
// what is written through one that was made of a slice is lost to the check once it stands in a struct (`core_answer::Lent`): the goal
// left is that the slice's last words are what was written. Each record has two functions of a line each, and no trait over the
// records: that would name each one's table, place and default once more.
#![tactic(auto)]

ghost use Rattle.std.specs.Prelude.{◌≡◌, ℕ, ◌<◌, ◌≤◌, length, get_or};
ghost use Rattle.rules.specs.Bytes.{zeros};
ghost use Rattle.rules.specs.Sizes.{max_domains, max_pages, max_contexts, max_frames};
ghost use Rattle.rules.specs.Records.{public_page, open_frame, empty_domain, free_context};
ghost use Rattle.core_tables.specs.Words.{names_word, PlaceFits, NamesFit};
ghost use Rattle.core_tables.specs.Image.{image_words, max_entries, tables_in, Canonical};
ghost use Rattle.core_tables.specs.Put.{Put, set_page, set_names, set_life, set_activity, set_used};

use rules::{Activity, Asid, Gppn, Gvpn, Life, PageRecord, Place, Setup};

pub mod saved;
pub mod words;

// How many pages the tables have room for.
pub const ENTRIES: usize = Setup::MAX_DOMAINS * Setup::MAX_PAGES;

// Where each table starts.
pub const DOMAINS_AT: usize = 0;

pub const CONTEXTS_AT: usize = DOMAINS_AT + Setup::MAX_DOMAINS;

pub const FRAMES_AT: usize = CONTEXTS_AT + Setup::MAX_CONTEXTS;

pub const MAPPED_AT: usize = FRAMES_AT + Setup::MAX_FRAMES;

pub const HOME_AT: usize = MAPPED_AT + ENTRIES;

pub const SIGN_AT: usize = HOME_AT + ENTRIES;

pub const USED_AT: usize = SIGN_AT + ENTRIES;

// How many words the image of tables has.
pub const WORDS: usize = USED_AT + 1;

// Every word 0: as freshly started, where there are as many words as an image has.
#[tactic(auto, unfolding(rules::specs::Bytes::zeros))]
pub fn zero(tables: &mut [u16])
    ensures { tables.new ≡ zeros (length tables.old) }
{
    tables.fill(0);
}

// The life of domain i.
pub fn life_at(tables: &[u16], i: usize) -> Life
    requires { (length tables.now ≡ image_words) × (i < max_domains) }
    ensures { (v : ℕ) → result ≡ (get_or (tables_in v tables.now).domains i empty_domain).life }
{
    words::life_in(tables[DOMAINS_AT + i])
}

pub fn put_life(tables: &mut [u16], i: usize, r: Life)
    requires { (length tables.old ≡ image_words) × (i < max_domains) }
    ensures { (v : ℕ) → Put v tables.old tables.new (set_life i r (tables_in v tables.old)) }
{
    tables[DOMAINS_AT + i] = words::life_word(r);
}

// What context i does.
pub fn activity_at(tables: &[u16], i: usize) -> Activity
    requires { (length tables.now ≡ image_words) × (i < max_contexts) }
    ensures { (v : ℕ) → result ≡ (get_or (tables_in v tables.now).contexts i free_context).activity }
{
    words::activity_in(tables[CONTEXTS_AT + i])
}

pub fn put_activity(tables: &mut [u16], i: usize, r: Activity)
    requires { (length tables.old ≡ image_words) × (i < max_contexts) }
    ensures { (v : ℕ) → Put v tables.old tables.new (set_activity i r (tables_in v tables.old)) }
{
    tables[CONTEXTS_AT + i] = words::activity_word(r);
}

// What frame i names; each domain has so many pages.
pub fn names_at(tables: &[u16], pages: usize, i: usize) -> Option<(Asid, Gvpn)>
    requires { (length tables.now ≡ image_words) × (1 ≤ pages) × (pages ≤ max_pages) × (i < max_frames) }
    ensures { result ≡ (get_or (tables_in pages tables.now).frames i open_frame).names }
{
    words::names_in(pages, tables[FRAMES_AT + i])
}

pub fn put_names(tables: &mut [u16], pages: usize, i: usize, r: Option<(Asid, Gvpn)>)
    requires { (length tables.old ≡ image_words) × (1 ≤ pages) × (pages ≤ max_pages) × (i < max_frames) × NamesFit pages r }
    ensures { Put pages tables.old tables.new (set_names i r (tables_in pages tables.old)) }
{
    tables[FRAMES_AT + i] = words::names_word(pages, r);
}

// Page record i.
pub fn page_at(tables: &[u16], i: usize) -> PageRecord
    requires { (length tables.now ≡ image_words) × (i < max_entries) }
    ensures { (v : ℕ) → result ≡ get_or (tables_in v tables.now).pages i public_page }
{
    PageRecord {
        mapping: mapping_at(tables, i),
        place: place_at(tables, i),
    }
}

pub fn mapping_at(tables: &[u16], i: usize) -> Option<Gppn>
    requires { (length tables.now ≡ image_words) × (i < max_entries) }
    ensures { (v : ℕ) → result ≡ (get_or (tables_in v tables.now).pages i public_page).mapping }
{
    words::mapping_in(tables[MAPPED_AT + i])
}

// Its place fits the words that it is read from.
pub fn place_at(tables: &[u16], i: usize) -> Place
    requires { (length tables.now ≡ image_words) × (i < max_entries) }
    ensures { (v : ℕ) → result ≡ (get_or (tables_in v tables.now).pages i public_page).place }
{
    words::place_in(tables[HOME_AT + i], tables[SIGN_AT + i])
}

pub fn put_mapping(tables: &mut [u16], i: usize, r: Option<Gppn>)
    requires { (length tables.old ≡ image_words) × (i < max_entries) }
    ensures { (v : ℕ) → Put v tables.old tables.new
        (set_page i (record { mapping = r; place = (get_or (tables_in v tables.old).pages i public_page).place })
        (tables_in v tables.old)) }
{
    tables[MAPPED_AT + i] = words::mapping_word(r);
}

pub fn put_place(tables: &mut [u16], i: usize, r: Place)
    requires { (length tables.old ≡ image_words) × (i < max_entries) × PlaceFits r }
    ensures { (v : ℕ) → Put v tables.old tables.new
        (set_page i (record { mapping = (get_or (tables_in v tables.old).pages i public_page).mapping; place = r })
        (tables_in v tables.old)) }
{
    tables[HOME_AT + i] = words::home_word(r);
    tables[SIGN_AT + i] = words::sign_word(r);
}

// The used count.
pub fn used_at(tables: &[u16]) -> u16
    requires { length tables.now ≡ image_words }
    ensures { (v : ℕ) → result ≡ (tables_in v tables.now).used }
{
    tables[USED_AT]
}

pub fn put_used(tables: &mut [u16], n: u16)
    requires { length tables.old ≡ image_words }
    ensures { (v : ℕ) → Put v tables.old tables.new (set_used n (tables_in v tables.old)) }
{
    tables[USED_AT] = n;
}

// Page record i, whole.
pub fn put_page(tables: &mut [u16], i: usize, r: PageRecord)
    requires { (length tables.old ≡ image_words) × (i < max_entries) × PlaceFits r.place }
    ensures { (v : ℕ) → Put v tables.old tables.new (set_page i r (tables_in v tables.old)) }
{
    put_mapping(tables, i, r.mapping);
    put_place(tables, i, r.place);
}

// A page's place and what a frame names, which tell of each other. Two records, each by its number: a struct of them would be made for
// this call alone.
pub fn put_move(
    tables: &mut [u16],
    pages: usize,
    slot: usize,
    place: Place,
    frame: usize,
    names: Option<(Asid, Gvpn)>,
)
    requires { (length tables.old ≡ image_words) × (1 ≤ pages) × (pages ≤ max_pages) × (slot < max_entries) × (frame < max_frames)
        × PlaceFits place × NamesFit pages names }
    ensures { Put pages tables.old tables.new
        (set_names frame names (set_page slot
        (record { mapping = (get_or (tables_in pages tables.old).pages slot public_page).mapping; place = place })
        (tables_in pages tables.old))) }
{
    put_place(tables, slot, place);
    put_names(tables, pages, frame, names);
}

// One more than the number among all of the page that frame i names, or 0: what it names, with no division.
pub fn slot_at(tables: &[u16], i: usize) -> u16
    requires { (length tables.now ≡ image_words) × (i < max_frames) }
    ensures { (v : ℕ) → Canonical v tables.now → result
        ≡ names_word v (get_or (tables_in v tables.now).frames i open_frame).names }
{
    tables[FRAMES_AT + i]
}
