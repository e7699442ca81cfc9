// Whether lent tables are the one image of a sound state. Each loop gathers with | what is wrong, and has no way out.
#![tactic(auto)]

ghost use Rattle.std.specs.Prelude.{◌≡◌, List, true, ℕ, ◌+◌, ◌<◌, ◌≤◌, length};
ghost use Rattle.rules.specs.Sizes.{setup_in_range, max_domains, max_pages};
ghost use Rattle.core_tables.specs.Image.{image_words, word_at, domains_at};
ghost use Rattle.core_sound.specs.Acceptable.{sound_image};
ghost use Rattle.core_sound.specs.Told.{Tells, Bare, Early};

use core_tables::{CONTEXTS_AT, DOMAINS_AT, ENTRIES, FRAMES_AT, USED_AT};
use rules::Setup;

pub mod loops;
pub mod ways;

// 0 where no context is in domain d, and its pages are as freshly started.
fn domain_bare(tables: &[u16], pages: usize, d: usize) -> u16
    requires { (length tables.now ≡ image_words) × (pages ≤ max_pages) × (d < max_domains) }
    ensures { Tells (Bare pages tables.now d) result }
{
    let row = d * pages;
    let low = (3 * d) as u16;
    loops::deserted(tables, low) | loops::untouched(tables, row, row + pages)
}

// 0 where each Empty domain is bare. The loop counts domains, since a domain's number is what it asks about.
fn empty_bare(tables: &[u16], domains: usize, pages: usize) -> u16
    requires { (length tables.now ≡ image_words) × (pages ≤ max_pages) × (domains ≤ max_domains) }
    ensures { Tells ((d : ℕ) → d < domains → word_at tables.now (domains_at + d) ≡ 0
        → Bare pages tables.now d) result }
{
    let mut any: u16 = 0;
    for d in 0..domains {
        if tables[DOMAINS_AT + d] == 0 {
            any |= domain_bare(tables, pages, d);
        }
    }
    any
}

// 0 where the words of the domains, contexts and frames and the used count are in range, and all is zero past the setup's sizes.
fn early(setup: Setup, tables: &[u16]) -> u16
    requires { (length tables.now ≡ image_words) × (setup_in_range setup ≡ true) }
    ensures { Tells (Early setup tables.now) result }
{
    let all = setup.domains * setup.pages;
    let domains = loops::section(tables, DOMAINS_AT, setup.domains, Setup::MAX_DOMAINS, 2);
    let contexts = loops::section(
        tables,
        CONTEXTS_AT,
        setup.contexts,
        Setup::MAX_CONTEXTS,
        (3 * setup.domains) as u16,
    );
    let frames = loops::section(
        tables,
        FRAMES_AT,
        setup.frames,
        Setup::MAX_FRAMES,
        all as u16,
    );
    let past = loops::untouched(tables, all, ENTRIES);
    let used = tables[USED_AT].saturating_sub(setup.signatures as u16);
    domains | contexts | frames | past | used
}

// Whether the tables are the one image of a sound state, whatever the saved registers.
pub fn sound(setup: Setup, tables: &[u16]) -> bool
    requires { (length tables.now ≡ image_words) × (setup_in_range setup ≡ true) }
    ensures { (y : List ℕ) → result ≡ sound_image setup tables.now y }
{
    if early(setup, tables) != 0 {
        return false;
    }
    let all = setup.domains * setup.pages;
    let late = ways::late(tables, setup.frames, all);
    let empty = empty_bare(tables, setup.domains, setup.pages);
    (late | empty) == 0
}
