// Records as words of 16 bits, and back. Functions, and no trait with laws: a frame's name goes by the pages of a domain too, and a
// page's place has two words, so that only three of the five records would have it, and its laws would be the same definitions.
ghost use Rattle.std.specs.Prelude.{◌≡◌, ◌+◌, ◌*◌, ◌<◌, ◌≤◌, Some};
ghost use Rattle.rules.specs.Sizes.{max_pages};
ghost use Rattle.core_tables.specs.Words.{life_in, activity_in, names_in, mapping_in, place_in};
ghost use Rattle.core_tables.specs.Words.{home_word, sign_word, LifeCode, ActivityCode, NamesCode, MappingCode, NamesFit};
ghost use Rattle.core_tables.specs.Words.{PlaceFits, Housed};

use rules::{Activity, Asid, Gppn, Gvpn, Life, Place, TrapKind, Wear};

#[tactic(auto, unfolding(crate::specs::Words::life_in))]
pub fn life_in(w: u16) -> Life
    ensures { result ≡ life_in w }
{
    match w {
        0 => Life::Empty,
        1 => Life::Live,
        _ => Life::Stopped,
    }
}

#[tactic(auto, using(crate::proofs::Codes::empty_code, crate::proofs::Codes::live_code, crate::proofs::Codes::stopped_code))]
pub fn life_word(l: Life) -> u16
    ensures { LifeCode l result }
{
    match l {
        Life::Empty => 0,
        Life::Live => 1,
        Life::Stopped => 2,
    }
}

#[tactic(auto, unfolding(crate::specs::Words::activity_in, crate::specs::Words::activity_as))]
pub fn activity_in(w: u16) -> Activity
    ensures { result ≡ activity_in w }
{
    if w == 0 {
        return Activity::Free;
    }
    let d = Asid(((w - 1) / 3 % 256) as u8);
    match (w - 1) % 3 {
        0 => Activity::Running(d),
        1 => Activity::Kept(d, TrapKind::Interrupt),
        _ => Activity::Kept(d, TrapKind::Call),
    }
}

#[tactic(auto, using(crate::proofs::Codes::free_code))]
pub fn activity_word(a: Activity) -> u16
    ensures { ActivityCode a result }
{
    match a {
        Activity::Free => 0,
        Activity::Running(d) => 1 + 3 * (d.0 as u16),
        Activity::Kept(d, TrapKind::Interrupt) => 2 + 3 * (d.0 as u16),
        Activity::Kept(d, TrapKind::Call) => 3 + 3 * (d.0 as u16),
    }
}

#[tactic(auto, unfolding(crate::specs::Words::names_in))]
pub fn names_in(pages: usize, w: u16) -> Option<(Asid, Gvpn)>
    requires { (1 ≤ pages) × (pages ≤ max_pages) }
    ensures { result ≡ names_in pages w }
{
    if w == 0 {
        return None;
    }
    let n = (w - 1) as usize;
    Some((Asid((n / pages % 256) as u8), Gvpn((n % pages) as u8)))
}

#[tactic(auto, unfolding(crate::specs::Words::NamesFit))]
pub fn names_word(pages: usize, n: Option<(Asid, Gvpn)>) -> u16
    requires { (1 ≤ pages) × (pages ≤ max_pages) × NamesFit pages n }
    ensures { NamesCode pages n result }
{
    match n {
        None => 0,
        Some((d, v)) => numbered(pages, d, v),
    }
}

// The word of a frame that names page v of domain d: one more than the page's number among all.
fn numbered(pages: usize, d: Asid, v: Gvpn) -> u16
    requires { (v.0 < pages) × (pages ≤ max_pages) }
    ensures { NamesCode pages (Some (d, v)) result }
{
    let row = (d.0 as usize) * pages;
    (1 + (row + v.0 as usize)) as u16
}

#[tactic(auto, unfolding(crate::specs::Words::mapping_in))]
pub fn mapping_in(w: u16) -> Option<Gppn>
    ensures { result ≡ mapping_in w }
{
    if w == 0 {
        return None;
    }
    Some(Gppn(((w - 1) % 256) as u8))
}

pub fn mapping_word(m: Option<Gppn>) -> u16
    ensures { MappingCode m result }
{
    match m {
        None => 0,
        Some(f) => 1 + f.0 as u16,
    }
}

#[tactic(auto, unfolding(crate::specs::Words::place_in, crate::specs::Words::hidden_in, crate::specs::Words::wear_in))]
pub fn place_in(h: u16, k: u16) -> Place
    ensures { result ≡ place_in h k }
{
    match (h, k) {
        (0, 0) => Place::Public,
        (0, _) => Place::Sealed(k - 1),
        (_, 0) => Place::Clear(Gppn(((h - 1) % 256) as u8), Wear::Dirty),
        (_, _) => Place::Clear(Gppn(((h - 1) % 256) as u8), Wear::Clean(k - 1)),
    }
}

#[tactic(auto, unfolding(crate::specs::Words::home_word, crate::specs::Words::Housed))]
pub fn home_word(p: Place) -> u16
    ensures { (result ≡ home_word p) × Housed p }
{
    match p {
        Place::Clear(f, _) => 1 + f.0 as u16,
        Place::Public | Place::Sealed(_) => 0,
    }
}

#[tactic(auto, unfolding(crate::specs::Words::sign_word, crate::specs::Words::PlaceFits))]
pub fn sign_word(p: Place) -> u16
    requires { PlaceFits p }
    ensures { result ≡ sign_word p }
{
    match p {
        Place::Public | Place::Clear(_, Wear::Dirty) => 0,
        Place::Clear(_, Wear::Clean(k)) | Place::Sealed(k) => 1 + k,
    }
}
