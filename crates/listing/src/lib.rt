// The listing of a trace, as document 01 has trace-run print it: the header's checks, the start, and an output filled with lines.
#![tactic(auto)]

ghost use Rattle.std.specs.Prelude.{◌≡◌, ◌+◌, ◌<◌, ◌≤◌, [], ◌∷◌, length, take, nat_le, nat_lt};
ghost use Rattle.io.specs.Counts.{IsPrefixLen};
ghost use Rattle.rules.specs.Bytes.{all_of};
ghost use Rattle.rules.specs.Asked.{Limited};
ghost use Rattle.listing.specs.Opening.{products_fit, opening_at};
ghost use Rattle.listing.specs.Listing.{shown_length, used_in, behind_run, ended_run};
ghost use Rattle.listing.specs.Filling.{Ready, line_room, refusal_wrote};
ghost use Rattle.listing.specs.Promises.{Starts, SameLent, lent_left, ListsEvent, ListsNext, ListsFitting};

use core_answer::Lent;
use rules::{Answer, Event, Refusal, Setup};
use trace_read::{Opened, Record};

// Where a run over a trace stands: all that is kept from one call to the next, but for what is lent.
#[derive(Clone, Copy)]
pub struct Run {
    pub setup: Setup,
    // Of the next record: its place in the trace, and its index.
    pub place: usize,
    pub index: usize,
}

impl Run {
    // Behind a record, which ends at next.
    fn behind(self, next: usize) -> Run
        requires { self.index < next }
        ensures { result ≡ behind_run self next }
    {
        Run {
            place: next,
            index: self.index + 1,
            ..self
        }
    }

    // At the trace's end.
    fn ended(self, end: usize) -> Run
        ensures { result ≡ ended_run self end }
    {
        Run { place: end, ..self }
    }
}

// A run behind some lines, and how many bytes of the output those take.
#[derive(Clone, Copy)]
pub struct Filled {
    pub run: Run,
    pub count: usize,
}

// A trace is at most so many bytes long, and so are the frames and the store.
const LIMIT: usize = 16384;

// Room for a line without the answer's bytes.
const LINE: usize = 128;

// The registers that a trap shows, in bytes.
const REGISTERS: usize = 64;

#[tactic(auto, unfolding(crate::specs::Opening::products_fit, rules::specs::Bytes::all_of))]
fn products_fit(setup: Setup) -> bool
    requires { Limited setup }
    ensures { result ≡ products_fit setup }
{
    setup.frames * setup.size <= LIMIT && setup.domains * setup.pages * setup.size <= LIMIT
}

// The setup and the place of the first record, where trace-run takes the trace; or why its header is refused.
pub fn opening(trace: &[u8]) -> Result<Opened, Refusal>
    ensures { result ≡ opening_at trace.now }
{
    if LIMIT < trace.len() {
        return Err(Refusal::NotAcceptable);
    }
    let sizes = trace_read::read_sizes(trace)?;
    if !products_fit(sizes.setup) {
        return Err(Refusal::NotAcceptable);
    }
    trace_read::read_header(trace)
}

// The line of a refused header, over the front of out; nothing where out is shorter than a line may be. How many bytes it takes.
pub fn refusal(number: u8, out: &mut [u8]) -> usize
    ensures wrote { record { count = result; out = out.new } ≡ refusal_wrote number out.old }
    ensures within { IsPrefixLen result out.new }
{
    if out.len() < LINE {
        return 0;
    }
    listing_line::refused_line(out, 0, 0, number, 0)
}

// The run before the record at a place: the core is started over what is lent. Here and in `fill`, which are public, each part of that
// is a parameter of its own, as `start_one` and `fill_one` (OneAnswer.antt) read them.
pub fn start(
    trace: &[u8],
    setup: Setup,
    place: usize,
    tables: &mut [u16],
    saved: &mut [u64],
    frames: &mut [u8],
    store: &mut [u8],
) -> Run
    ensures { Starts trace setup place tables saved frames store result }
{
    core_entry::start(
        setup,
        tables,
        saved,
        frames,
        store,
        trace_read::supply(trace),
    );
    Run {
        setup,
        place,
        index: 0,
    }
}

// How many bytes of the answer a line shows.
#[tactic(auto, unfolding(crate::specs::Listing::shown_length, crate::specs::Listing::is_shown))]
fn shown_length(event: Event, number: u8) -> usize
    ensures { result ≡ shown_length event number }
{
    match event {
        Event::KernelRead(_, span) if number == Answer::DONE => span.len,
        Event::Trap(..) if number == Answer::DONE => REGISTERS,
        _ => 0,
    }
}

// So many bytes at the front of the answer buffer. This and `used` take the whole of what is lent: of one field that is lent to be read,
// the check keeps the length and not what it holds.
fn shown<'a>(lent: &'a Lent<'_>, count: usize) -> &'a [u8]
    requires { count ≤ length lent.now.answer.now }
    ensures { result.now ≡ take count lent.now.answer.now }
{
    &lent.answer[..count]
}

// The line of a record's event over out from at on; the run behind the record, and the place behind the line. The place stands beside
// out, and not with it in a cursor, as in `listing_line::event_line`, which is public and whose promise (`Put`) names both.
fn event_turn(
    run: Run,
    found: Record,
    data: &[u8],
    trace: &[u8],
    lent: &mut Lent<'_>,
    out: &mut [u8],
    at: usize,
) -> Filled
    requires { (run.index < found.next) × (at + line_room (length lent.old.answer.now) ≤ length out.old) }
    ensures lists { ListsEvent run found «data».now trace.now lent.old out.old at (lent_left result trace.now lent.new out.new) }
    ensures same { SameLent lent.old lent.new }
    ensures within { result.count ≤ at + line_room (length lent.old.answer.now) }
{
    let event = found.event;
    let supply = trace_read::supply(trace);
    let told = core_entry::step(
        run.setup,
        lent.tables,
        lent.saved,
        lent.frames,
        lent.store,
        supply,
        event,
        data,
        lent.answer,
    );
    let shown = shown(lent, shown_length(event, told.number));
    let count = listing_line::event_line(out, at, run.index, event.kind(), told, shown);
    Filled {
        run: run.behind(found.next),
        count,
    }
}

// The used count as it stands, which the line of a refused record tells; 0 where the words are too few to have one.
fn used(lent: &Lent<'_>) -> u16
    ensures { result ≡ used_in lent.now.tables.now }
{
    lent.tables.get(core_tables::USED_AT).copied().unwrap_or(0)
}

// The line of what stands at the run's place, over out from at on; the run behind it, and the place behind the line.
fn turn(run: Run, trace: &[u8], lent: &mut Lent<'_>, out: &mut [u8], at: usize) -> Filled
    requires { Ready trace.now run (length lent.old.answer.now) (length out.old) at }
    ensures lists { ListsNext run trace.now lent.old out.old at (lent_left result trace.now lent.new out.new) }
    ensures same { SameLent lent.old lent.new }
    ensures within { result.count ≤ at + line_room (length lent.old.answer.now) }
{
    let unread = &trace[run.place..];
    let found = trace_read::record_at(unread, run.place);
    match found {
        Ok(Some(record)) => {
            let new = trace_read::data_of(unread, found);
            event_turn(run, record, new, trace, lent, out, at)
        }
        Ok(None) => Filled {
            run: run.ended(trace.len()),
            count: at,
        },
        Err(refusal) => {
            let told = used(lent);
            let count = listing_line::refused_line(out, at, run.index, refusal.into(), told);
            Filled {
                run: run.ended(trace.len()),
                count,
            }
        }
    }
}

// Fills out with whole lines, as many as surely fit. The run behind them, and how many bytes they take.
pub fn fill(
    run: Run,
    trace: &[u8],
    tables: &mut [u16],
    saved: &mut [u64],
    frames: &mut [u8],
    store: &mut [u8],
    answer: &mut [u8],
    out: &mut [u8],
) -> Filled
    ensures lists { ListsFitting run trace tables saved frames store answer out result }
    ensures within { IsPrefixLen result.count out.new }
{
    let mut filled = Filled { run, count: 0 };
    if run.place < run.index {
        return filled;
    }
    // where that is no usize, no output is so long
    let longest = LINE.saturating_add(2 * answer.len());
    let mut lent = Lent {
        tables,
        saved,
        frames,
        store,
        answer,
    };
    while filled.run.place < trace.len() && longest <= out.len() - filled.count {
        filled = turn(filled.run, trace, &mut lent, out, filled.count);
    }
    filled
}
