// Whether frames and pages tell of each other: the frames' names are laid out by page, which is what the pages' homes must be.
ghost use Rattle.std.specs.Prelude.{◌≡◌, ℕ, ◌+◌, ◌<◌, ◌≤◌, length, replicate};
ghost use Rattle.rules.specs.Sizes.{max_frames};
ghost use Rattle.core_tables.specs.Image.{image_words, word_at, frames_at, max_entries};
ghost use Rattle.core_sound.specs.Told.{Tells, NamesHome, Holds, Kept, Late};

use core_tables::{ENTRIES, FRAMES_AT, HOME_AT, MAPPED_AT, SIGN_AT, USED_AT};

// A word for no page, and one for each page.
const HELD: usize = ENTRIES + 1;

// 0 where k is 0, or home is own.
fn differing(k: usize, home: u16, own: u16) -> u16
    ensures { Tells ((k ≡ 0 → ⊥) → home ≡ own) result }
{
    if k == 0 { 0 } else { home ^ own }
}

// Lays the frames' names out in held, which is zero. 0 where each frame names no page, or one that is Clear in it. The loop counts
// frames, since a frame's number is what it lays out.
fn lay_out(tables: &[u16], frames: usize, held: &mut [u16; HELD]) -> u16
    requires { (length tables.now ≡ image_words) × (frames ≤ max_frames) × (held.old ≡ replicate (1 + max_entries) 0)
        × ((f : ℕ) → f < frames → word_at tables.now (frames_at + f) ≤ max_entries) }
    ensures { (Holds tables.now frames held.new)
        × Tells ((f : ℕ) → f < frames → NamesHome tables.now f) result }
{
    let mut any: u16 = 0;
    for f in 0..frames {
        let k = tables[FRAMES_AT + f] as usize;
        let own = (f + 1) as u16;
        held[k] = own;
        let home = HOME_AT + k - 1;
        any |= differing(k, tables[home], own);
    }
    any
}

// 0 where the pages' words are in range, and their homes what held has for them: one loop for their three tables, and so by the
// page's number.
fn pages_kept(tables: &[u16], frames: usize, pages: usize, held: &[u16; HELD]) -> u16
    requires { (length tables.now ≡ image_words) × (frames ≤ max_frames) × (pages ≤ max_entries) }
    ensures { Tells ((i : ℕ) → i < pages → Kept tables.now held.now frames i) result }
{
    let used = tables[USED_AT];
    let top = frames as u16;
    let mut any: u16 = 0;
    for i in 0..pages {
        let mapped = tables[MAPPED_AT + i].saturating_sub(top);
        let home = tables[HOME_AT + i] ^ held[1 + i];
        let sign = tables[SIGN_AT + i].saturating_sub(used);
        any |= mapped | home | sign;
    }
    any
}

// 0 where the pages' words are in range, and frames and pages tell of each other.
pub fn late(tables: &[u16], frames: usize, pages: usize) -> u16
    requires { (length tables.now ≡ image_words) × (frames ≤ max_frames) × (pages ≤ max_entries)
        × ((f : ℕ) → f < frames → word_at tables.now (frames_at + f) ≤ pages) }
    ensures { Tells (Late tables.now frames pages) result }
{
    let mut held = [0u16; HELD];
    let names = lay_out(tables, frames, &mut held);
    let kept = pages_kept(tables, frames, pages, &held);
    names | kept
}
