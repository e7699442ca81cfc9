// The checks on the records of the tables, and on the signatures that are left: an event whose shape is right. Each event has
// its function, which reads the few records that the event concerns; end and map, read and write, and leave and trap, ask
// the same.
ghost use Rattle.std.specs.Prelude.{◌≡◌, ◌≤◌, ◌<◌};
ghost use Rattle.rules.specs.Sizes.{max_signatures};
ghost use Rattle.rules.specs.Records.{names_of};
ghost use Rattle.rules.specs.Sealing.{takes_named};
ghost use Rattle.rules.specs.Answers.{first_of};
ghost use Rattle.rules.specs.Refusals.{number_in};
ghost use Rattle.rules.specs.declared.Span.{Span};
ghost use Rattle.core_tables.specs.Image.{tables_in};
ghost use Rattle.core_tables.specs.Tested.{Tested};
ghost use Rattle.core_refuse.specs.Stages.{record_checks, seal_checks, standing, own_of};

use rules::{Activity, Asid, Ctc, Event, Gppn, Gvpn, Life, Place, Refusal, Setup};

// The order of the checks on records.
#[tactic(auto, unfolding(crate::specs::Stages::record_checks, rules::specs::Answers::check, rules::specs::Answers::first_of))]
fn fit(condition: bool, live: bool, mapped: bool) -> Result<(), Refusal>
    ensures { number_in result ≡ first_of (record_checks condition live mapped) }
{
    if !condition {
        return Err(Refusal::WrongCondition);
    }
    if !live {
        return Err(Refusal::Stopped);
    }
    if !mapped {
        return Err(Refusal::NotMapped);
    }
    Ok(())
}

// Whether so many signatures are left.
#[tactic(auto, unfolding(crate::specs::Stages::seal_checks, rules::specs::Answers::check, rules::specs::Answers::first_of))]
fn spare(setup: Setup, used: u16, takes: usize) -> Result<(), Refusal>
    requires { takes ≤ max_signatures }
    ensures { number_in result ≡ first_of (seal_checks setup used takes) }
{
    if setup.signatures < (used as usize) + takes {
        Err(Refusal::NoSignature)
    } else {
        Ok(())
    }
}

// The signatures that sealing what is Clear in a frame takes.
fn takes_named(setup: Setup, tables: &[u16], f: Gppn) -> u8
    requires { (Tested setup tables.now) × (f.0 < setup.frames) }
    ensures { result ≡ takes_named setup (tables_in setup.pages tables.now)
        (names_of (tables_in setup.pages tables.now) f) }
{
    // The word itself, 0 or one more than the page's number, as `core_seal::seal` reads it.
    let named = core_tables::slot_at(tables, f.0 as usize);
    if named == 0 {
        return 0;
    }
    let place = core_tables::place_at(tables, (named - 1) as usize);
    place.takes()
}

// begin: its domain is Empty and its context Free.
#[tactic(auto, using(crate::proofs::Asked::begin))]
pub fn begin(setup: Setup, tables: &[u16], d: Asid, c: Ctc) -> Result<(), Refusal>
    requires { (Tested setup tables.now) × (d.0 < setup.domains) × (c.0 < setup.contexts) }
    ensures { number_in result ≡ standing setup (tables_in setup.pages tables.now) (Event.Begin d c) }
{
    let life = core_tables::life_at(tables, d.0 as usize);
    let activity = core_tables::activity_at(tables, c.0 as usize);
    fit(life.is_empty() && activity.is_free(), true, true)
}

// end, map: the domain is not Empty.
#[tactic(auto, using(crate::proofs::Asked::end))]
pub fn end(setup: Setup, tables: &[u16], d: Asid) -> Result<(), Refusal>
    requires { (Tested setup tables.now) × (d.0 < setup.domains) }
    ensures { number_in result ≡ standing setup (tables_in setup.pages tables.now) (Event.End d) }
{
    let life = core_tables::life_at(tables, d.0 as usize);
    fit(!life.is_empty(), true, true)
}

// unmap: the domain is not Empty, and the page is mapped.
#[tactic(auto, using(crate::proofs::Asked::unmapped))]
pub fn unmap(setup: Setup, tables: &[u16], d: Asid, v: Gvpn) -> Result<(), Refusal>
    requires { (Tested setup tables.now) × (d.0 < setup.domains) × (v.0 < setup.pages) }
    ensures { number_in result ≡ standing setup (tables_in setup.pages tables.now) (Event.Unmap d v) }
{
    let life = core_tables::life_at(tables, d.0 as usize);
    let mapping = core_tables::mapping_at(tables, setup.page_number(d, v));
    fit(!life.is_empty(), true, mapping.is_some())
}

// kernel read, kernel write: what is Clear in the frame is sealed.
#[tactic(auto, using(crate::proofs::Asked::kernel))]
pub fn kernel(setup: Setup, tables: &[u16], f: Gppn) -> Result<(), Refusal>
    requires { (Tested setup tables.now) × (f.0 < setup.frames) }
    ensures { (x : Span) → number_in result ≡ standing setup (tables_in setup.pages tables.now) (Event.KernelRead f x) }
{
    let takes = takes_named(setup, tables, f) as usize;
    spare(setup, core_tables::used_at(tables), takes)
}

// resume: the context is Kept in the domain, which is not Stopped.
#[tactic(auto, using(crate::proofs::Asked::resume))]
pub fn resume(setup: Setup, tables: &[u16], d: Asid, c: Ctc) -> Result<(), Refusal>
    requires { (Tested setup tables.now) × (d.0 < setup.domains) × (c.0 < setup.contexts) }
    ensures { number_in result ≡ standing setup (tables_in setup.pages tables.now) (Event.Resume d c) }
{
    let life = core_tables::life_at(tables, d.0 as usize);
    let activity = core_tables::activity_at(tables, c.0 as usize);
    fit(activity.is_kept_in(d), !life.is_stopped(), true)
}

// spawn: the context is Running, in a domain that is not Stopped, and the other is Free.
#[tactic(auto, using(crate::proofs::Asked::spawn))]
pub fn spawn(setup: Setup, tables: &[u16], c: Ctc, u: Ctc) -> Result<(), Refusal>
    requires { (Tested setup tables.now) × (c.0 < setup.contexts) × (u.0 < setup.contexts) }
    ensures { number_in result ≡ standing setup (tables_in setup.pages tables.now) (Event.Spawn c u) }
{
    let activity = core_tables::activity_at(tables, c.0 as usize);
    let home = activity.domain();
    let life = core_tables::life_at(tables, home.0 as usize);
    let other = core_tables::activity_at(tables, u.0 as usize);
    fit(
        activity.is_running() && other.is_free(),
        !life.is_stopped(),
        true,
    )
}

// leave, trap: the context is Running, in a domain that is not Stopped.
#[tactic(auto, using(crate::proofs::Asked::leave))]
pub fn leave(setup: Setup, tables: &[u16], c: Ctc) -> Result<(), Refusal>
    requires { (Tested setup tables.now) × (c.0 < setup.contexts) }
    ensures { number_in result ≡ standing setup (tables_in setup.pages tables.now) (Event.Leave c) }
{
    let activity = core_tables::activity_at(tables, c.0 as usize);
    let home = activity.domain();
    let life = core_tables::life_at(tables, home.0 as usize);
    fit(activity.is_running(), !life.is_stopped(), true)
}

// What an event of a context's on its own page concerns: the context, its domain and the page.
#[derive(Clone, Copy)]
pub struct Own {
    pub activity: Activity,
    pub life: Life,
    pub mapping: Option<Gppn>,
    pub place: Place,
}

// Reads them, once for the three functions below.
fn own_records(setup: Setup, tables: &[u16], c: Ctc, v: Gvpn) -> Own
    requires { (Tested setup tables.now) × (c.0 < setup.contexts) × (v.0 < setup.pages) }
    ensures { result ≡ own_of setup (tables_in setup.pages tables.now) c v }
{
    let activity = core_tables::activity_at(tables, c.0 as usize);
    let home = activity.domain();
    let life = core_tables::life_at(tables, home.0 as usize);
    let slot = setup.page_number(home, v);
    let mapping = core_tables::mapping_at(tables, slot);
    let place = core_tables::place_at(tables, slot);
    Own {
        activity,
        life,
        mapping,
        place,
    }
}

// cloak: the page is Public, and what is Clear in the mapped frame is sealed.
#[tactic(auto, using(crate::proofs::Asked::cloaked))]
pub fn cloak(setup: Setup, tables: &[u16], c: Ctc, v: Gvpn) -> Result<(), Refusal>
    requires { (Tested setup tables.now) × (c.0 < setup.contexts) × (v.0 < setup.pages) }
    ensures { number_in result ≡ standing setup (tables_in setup.pages tables.now) (Event.Cloak c v) }
{
    let Own {
        activity,
        life,
        mapping,
        place,
    } = own_records(setup, tables, c, v);
    fit(
        activity.is_running() && place.is_public(),
        !life.is_stopped(),
        mapping.is_some(),
    )?;
    let takes = takes_named(setup, tables, mapping.unwrap_or(Gppn(0))) as usize;
    spare(setup, core_tables::used_at(tables), takes)
}

// uncloak: the page is private; it needs no mapping.
#[tactic(auto, using(crate::proofs::Asked::uncloak))]
pub fn uncloak(setup: Setup, tables: &[u16], c: Ctc, v: Gvpn) -> Result<(), Refusal>
    requires { (Tested setup tables.now) × (c.0 < setup.contexts) × (v.0 < setup.pages) }
    ensures { number_in result ≡ standing setup (tables_in setup.pages tables.now) (Event.Uncloak c v) }
{
    let Own {
        activity,
        life,
        place,
        ..
    } = own_records(setup, tables, c, v);
    fit(
        activity.is_running() && !place.is_public(),
        !life.is_stopped(),
        true,
    )
}

// read, write: a page that is Clear in the mapped frame seals nothing; any other is sealed first where it is Clear, and
// then what is Clear in the frame.
#[tactic(auto, using(crate::proofs::Asked::touched))]
pub fn touch(setup: Setup, tables: &[u16], c: Ctc, v: Gvpn) -> Result<(), Refusal>
    requires { (Tested setup tables.now) × (c.0 < setup.contexts) × (v.0 < setup.pages) }
    ensures { (x : Span) → number_in result ≡ standing setup (tables_in setup.pages tables.now) (Event.Read c v x) }
{
    let Own {
        activity,
        life,
        mapping,
        place,
    } = own_records(setup, tables, c, v);
    fit(activity.is_running(), !life.is_stopped(), mapping.is_some())?;
    let f = mapping.unwrap_or(Gppn(0));
    if place.is_clear_in(f) {
        return Ok(());
    }
    let takes = place.takes() as usize + takes_named(setup, tables, f) as usize;
    spare(setup, core_tables::used_at(tables), takes)
}
