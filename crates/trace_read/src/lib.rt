// The reader: a trace's header, and its records one after the other. Nothing is copied; the supply and a record's data
// are parts of the trace.
#![tactic(auto)]

ghost use Rattle.std.specs.Prelude.{◌≡◌, ◌+◌, ◌-◌, ◌/◌, ◌^◌, ◌≤◌, ◌<◌, length, take, drop};
ghost use Rattle.trace_bits.specs.Packing.{split};
ghost use Rattle.trace_form.specs.Form.{Right, first};
ghost use Rattle.trace_form.specs.Header.{header_widths, setup_in, spare_in};
ghost use Rattle.trace_read.specs.Promises.{Reads, Unread, Finds, Behind};
ghost use Rattle.trace_read.specs.Reading.{sizes_at, header_at, supply_in, records_in, data_at, record_of, read_at};
ghost use Rattle.trace_read.specs.Reading.{data_in, unread_after, place_after};

use rules::{Event, Refusal, Setup};
use trace_form::Form;

// What a trace's header says: the setup, and the place where the records start.
#[derive(Clone, Copy)]
pub struct Opened {
    pub setup: Setup,
    pub records: usize,
}

// A record: its event, its data, which is len of the unread bytes from start on, and the place behind it.
#[derive(Clone, Copy)]
pub struct Record {
    pub event: Event,
    pub start: usize,
    pub len: usize,
    pub next: usize,
}

fn spare_in(n: usize) -> usize
    ensures { result ≡ spare_in (split header_widths n) }
{
    trace_bits::field(n, 0, Form::SPARE)
}

fn setup_in(n: usize) -> Setup
    ensures { result ≡ setup_in (split header_widths n) }
{
    let after_frames = Form::SIGNATURES + Form::SPARE;
    let after_contexts = Form::FRAME + after_frames;
    let after_pages = Form::CONTEXT + after_contexts;
    let after_domains = Form::PAGE + after_pages;
    let after_size = Form::DOMAIN + after_domains;
    Setup {
        size: (trace_bits::field(n, after_size, Form::SIZE) + 1) * Setup::SIZE_UNIT,
        domains: trace_bits::field(n, after_domains, Form::DOMAIN) + 1,
        pages: trace_bits::field(n, after_pages, Form::PAGE) + 1,
        contexts: trace_bits::field(n, after_contexts, Form::CONTEXT) + 1,
        frames: trace_bits::field(n, after_frames, Form::FRAME) + 1,
        signatures: trace_bits::field(n, Form::SPARE, Form::SIGNATURES),
    }
}

// What the header's 48 bits say, whether or not the signatures are whole.
#[tactic(auto, unfolding(crate::proofs::Opening::the_sizes))]
pub fn read_sizes(trace: &[u8]) -> Result<Opened, Refusal>
    ensures { result ≡ sizes_at trace.now }
{
    if trace.len() < Form::HEADER {
        return Err(Refusal::CutShort);
    }
    let n = numbers::load(trace, Form::HEADER) as usize;
    if spare_in(n) != 0 {
        return Err(Refusal::CutShort);
    }
    let setup = setup_in(n);
    Ok(Opened {
        setup,
        records: Form::HEADER + setup.signatures * setup.size,
    })
}

// What the header says, where its signatures are whole too.
#[tactic(auto, unfolding(crate::specs::Reading::header_at))]
pub fn read_header(trace: &[u8]) -> Result<Opened, Refusal>
    ensures { result ≡ header_at trace.now }
{
    let opened = read_sizes(trace)?;
    if trace.len() < opened.records {
        return Err(Refusal::CutShort);
    }
    Ok(opened)
}

// The part of a slice from start on, len bytes of it or as many as there are.
#[tactic(auto, using(std::proofs::lemmas::List::take_min))]
fn part(bytes: &[u8], start: usize, len: usize) -> &[u8]
    ensures { result.now ≡ take len (drop start bytes.now) }
{
    let rest = behind(bytes, start);
    &rest[..len.min(rest.len())]
}

// The part of a slice behind its first n bytes, or none where it has no more.
#[tactic(auto, using(std::proofs::lemmas::List::drop_min))]
fn behind(bytes: &[u8], n: usize) -> &[u8]
    ensures { result.now ≡ drop n bytes.now }
{
    &bytes[n.min(bytes.len())..]
}

// The part of a trace that is its supply; none of it where the header is refused.
#[tactic(auto, using(crate::proofs::Headers::records_start, crate::proofs::Headers::starts_past))]
pub fn supply(trace: &[u8]) -> &[u8]
    ensures { result.now ≡ supply_in (header_at trace.now) trace.now }
{
    match read_header(trace) {
        Ok(opened) => part(trace, Form::HEADER, opened.records - Form::HEADER),
        Err(_) => &[],
    }
}

// The part of a trace that is its records; none of it where the header is refused.
pub fn records(trace: &[u8]) -> &[u8]
    ensures { result.now ≡ records_in (header_at trace.now) trace.now }
{
    match read_header(trace) {
        Ok(opened) => behind(trace, opened.records),
        Err(_) => &[],
    }
}

fn kind_in(form: Form, byte: u8) -> usize
    requires { Right form }
    ensures { result ≡ byte / 2 ^ (8 - form.kind) }
{
    (byte as usize) >> (8 - form.kind)
}

// Of a record whose head is start of n bytes: whole with its data, or cut short.
#[tactic(auto, unfolding(crate::specs::Reading::data_at))]
fn data_at(n: usize, place: usize, start: usize, event: Event) -> Result<Record, Refusal>
    requires { (start ≤ n) × (place + n < 2 ^ 64) }
    ensures { result ≡ data_at n place start event }
{
    let len = event.data_length();
    if n - start < len {
        return Err(Refusal::CutShort);
    }
    let next = place + start + len;
    Ok(Record {
        event,
        start,
        len,
        next,
    })
}

// The record of that kind, where it is whole and has zero bits for padding.
#[tactic(auto, using(trace_form::proofs::Heads::laid_at), unfolding(crate::proofs::Opening::the_record))]
fn record_of(form: Form, unread: &[u8], place: usize, kind: usize) -> Result<Record, Refusal>
    requires { Right form × (place + length unread.now < 2 ^ 64) × (kind ≤ 13) }
    ensures { result ≡ record_of form kind unread.now place }
{
    let head = form.head(kind);
    let bytes = head.bytes;
    if unread.len() < bytes {
        return Err(Refusal::CutShort);
    }
    let n = numbers::load(unread, bytes) as usize;
    if head.padding_in(n) != 0 {
        return Err(Refusal::CutShort);
    }
    let event = trace_form::event_of(kind, head.fields_in(n));
    data_at(unread.len(), place, bytes, event)
}

// What the unread bytes begin with, in any form; place is theirs in the trace.
#[tactic(auto, unfolding(crate::proofs::Opening::the_reading))]
fn read_in(form: Form, unread: &[u8], place: usize) -> Result<Option<Record>, Refusal>
    requires { Right form }
    ensures { result ≡ read_at form unread.now place }
{
    // A byte at the last place could not be counted.
    if usize::MAX - place < unread.len() {
        return Err(Refusal::NotAcceptable);
    }
    if unread.is_empty() {
        return Ok(None);
    }
    let kind = kind_in(form, unread[0]);
    if kind >= form.kinds {
        return Err(Refusal::NoEvent);
    }
    match kind {
        // the kernel's events, and the application's
        0..=6 | 7..=13 => record_of(form, unread, place, kind).map(Some),
        _ => Err(Refusal::NoEvent),
    }
}

// What the unread bytes begin with; place is theirs in the trace. The reader's work, on a plain slice and a number. Where no
// bytes are left, it is no record.
pub fn record_at(unread: &[u8], place: usize) -> Result<Option<Record>, Refusal>
    ensures { result ≡ read_at first unread.now place }
{
    read_in(Form::FIRST, unread, place)
}

// The part of the unread bytes that is the data of the record found at their front; none where none was found.
pub fn data_of(unread: &[u8], found: Result<Option<Record>, Refusal>) -> &[u8]
    ensures { result.now ≡ data_in found unread.now }
{
    match found {
        Ok(Some(record)) => part(unread, record.start, record.len),
        Ok(None) => &[],
        Err(_) => &[],
    }
}

// What is unread behind the record found; all of it where none was found, at the end and at a refusal.
pub fn unread_after(unread: &[u8], found: Result<Option<Record>, Refusal>) -> &[u8]
    ensures { result.now ≡ unread_after found unread.now }
{
    match found {
        Ok(Some(record)) => behind(behind(unread, record.start), record.len),
        Ok(None) => unread,
        Err(_) => unread,
    }
}

// The place behind the record found; the same place where none was found, at the end and at a refusal.
pub fn place_after(place: usize, found: Result<Option<Record>, Refusal>) -> usize
    ensures { result ≡ place_after found place }
{
    match found {
        Ok(Some(record)) => record.next,
        Ok(None) => place,
        Err(_) => place,
    }
}

// The reader: the bytes of a trace that are still unread, and their place. Its functions take it apart and leave the work
// to those above, on a plain slice and a number. It is no Iterator: `next` looks and `advance` moves, since a caller works on a
// record's data before it goes on, and a refused read stays where it is.
#[derive(Clone, Copy)]
pub struct Reader<'a> {
    pub unread: &'a [u8],
    pub place: usize,
}

impl<'a> Reader<'a> {
    pub fn new(unread: &'a [u8], place: usize) -> Reader<'a>
        ensures { Reads unread.entry place result }
    {
        Reader { unread, place }
    }

    // How many bytes are still unread.
    pub fn left(self) -> usize
        ensures { Unread self.entry result }
    {
        self.unread.len()
    }

    // What is next.
    pub fn next(self) -> Result<Option<Record>, Refusal>
        ensures { Finds self.entry.unread.now self.entry.place result }
    {
        record_at(self.unread, self.place)
    }

    // The reader behind what was found; at the same place where that was no record.
    pub fn advance(self, found: Result<Option<Record>, Refusal>) -> Reader<'a>
        ensures { Behind self.entry found result }
    {
        let place = place_after(self.place, found);
        Reader {
            unread: unread_after(self.unread, found),
            place,
        }
    }
}

// What a reader at that place of a trace finds next: for whoever has no reader.
pub fn read_record(unread: &[u8], place: usize) -> Result<Option<Record>, Refusal>
    ensures { Finds unread.now place result }
{
    Reader::new(unread, place).next()
}
