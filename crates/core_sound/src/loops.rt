// Loops over a part of the tables' words.
ghost use Rattle.std.specs.Prelude.{◌≡◌, ℕ, ◌+◌, ◌*◌, ◌-◌, ◌<◌, ◌≤◌, length};
ghost use Rattle.rules.specs.Sizes.{max_domains, max_contexts};
ghost use Rattle.core_tables.specs.Image.{image_words, max_entries, word_at, contexts_at};
ghost use Rattle.core_sound.specs.Told.{Tells, Each, Section, Untouched};

use core_tables::{CONTEXTS_AT, FRAMES_AT, HOME_AT, MAPPED_AT, SIGN_AT};

// 0 where no word from a to e is over top.
fn over(tables: &[u16], a: usize, e: usize, top: u16) -> u16
    requires { (a ≤ e) × (e ≤ length tables.now) }
    ensures { Tells (Each (λ k. word_at tables.now k ≤ top) a e) result }
{
    let mut any: u16 = 0;
    for &w in &tables[a..e] {
        any |= w.saturating_sub(top);
    }
    any
}

// 0 where the pages from a to e are as freshly started: one loop for their three tables, and so by the page's number.
pub fn untouched(tables: &[u16], a: usize, e: usize) -> u16
    requires { (length tables.now ≡ image_words) × (a ≤ e) × (e ≤ max_entries) }
    ensures { Tells (Each (Untouched tables.now) a e) result }
{
    let mut any: u16 = 0;
    for i in a..e {
        any |= tables[MAPPED_AT + i] | tables[HOME_AT + i] | tables[SIGN_AT + i];
    }
    any
}

// 0 where so many words of a table are at most top, and the others of its room 0.
pub fn section(tables: &[u16], start: usize, count: usize, room: usize, top: u16) -> u16
    requires { (count ≤ room) × (start + room ≤ length tables.now) }
    ensures { Tells (Section tables.now start count room top) result }
{
    let end = start + count;
    over(tables, start, end, top) | over(tables, end, start + room, 0)
}

// 0 where w is none of the three above low.
fn inside(w: u16, low: u16) -> u16
    requires { low < 3 * max_domains }
    ensures { Tells (low < w → w ≤ low + 3 → ⊥) result }
{
    u16::from(low < w && w <= low + 3)
}

// 0 where no context's word is one of the three above low.
pub fn deserted(tables: &[u16], low: u16) -> u16
    requires { (length tables.now ≡ image_words) × (low < 3 * max_domains) }
    ensures { Tells ((i : ℕ) → i < max_contexts → low < word_at tables.now (contexts_at + i)
        → word_at tables.now (contexts_at + i) ≤ low + 3 → ⊥) result }
{
    let mut any: u16 = 0;
    for &w in &tables[CONTEXTS_AT..FRAMES_AT] {
        any |= inside(w, low);
    }
    any
}
