// trace-run: a trace on standard input, its listing on standard output, as document 01 says, and nothing else. All of the input is
// read before anything is written. What the lines are is promised by listing; here they are read and written.
#![tactic(auto)]

ghost use Rattle.std.specs.Prelude.{◌≡◌, ◌≤◌, length, IfOk};
ghost use Rattle.listing.specs.Opening.{opening_at};
ghost use Rattle.listing.specs.Listing.{answer_room};
ghost use Rattle.listing.specs.Filling.{line_room};

use core_answer::Lent;
use rules::Setup;
use std::io;
use std::io::Read;
use trace_read::Opened;

// Fills buf from the input, to its end or to that of the input, and returns how many bytes were read. A read may give less than was
// asked for. std has no method for it: read_exact fails at the input's end, and read_to_end fills a Vec, for which there is no heap.
fn read_all(input: &mut impl Read, buf: &mut [u8]) -> io::Result<usize>
    ensures read { IfOk result (λ n. n ≤ length buf.new) }
    ensures long { length buf.new ≡ length buf.old }
{
    let mut count = 0;
    while count < buf.len() {
        match input.read(&mut buf[count..])? {
            0 => break,
            more => count += more,
        }
    }
    Ok(count)
}

// Writes the lines of the trace's records, in large pieces, until the trace is at its end or the output is closed.
fn write_lines(
    rt: &impl Print,
    trace: &[u8],
    opened: Opened,
    lent: &mut Lent<'_>,
    out: &mut [u8],
) -> io::Result<()>
    requires { line_room (length lent.old.answer.now) ≤ length out.old }
{
    let mut run = listing::start(
        trace,
        opened.setup,
        opened.records,
        lent.tables,
        lent.saved,
        lent.frames,
        lent.store,
    );
    while run.place < trace.len() {
        let filled = listing::fill(
            run,
            trace,
            lent.tables,
            lent.saved,
            lent.frames,
            lent.store,
            lent.answer,
            out,
        );
        rt.write_all(&out[..filled.count])?;
        run = filled.run;
    }
    Ok(())
}

// Words of saved registers for the most contexts that a setup has: eight for each.
const SAVED: usize = 8 * Setup::MAX_CONTEXTS;

// A trace, the frames and the store are at most so many bytes long.
const LIMIT: usize = 16384;

const ANSWER: usize = 4096;

// Room for many lines.
const ROOM: usize = 65536;

// The listing of a trace that trace-run takes: of the lent words and bytes as many as the setup asks for are handed on.
fn list_records(rt: &impl Print, trace: &[u8], opened: Opened, out: &mut [u8]) -> io::Result<()>
    requires { (opening_at trace.now ≡ Ok opened) × (line_room answer_room ≤ length out.old) }
{
    let mut tables = [0u16; core_tables::WORDS];
    let mut saved = [0u64; SAVED];
    let mut frames = [0u8; LIMIT];
    let mut store = [0u8; LIMIT];
    let mut answer = [0u8; ANSWER];
    let setup = opened.setup;
    let saved_length = 8 * setup.contexts;
    let frames_length = setup.frames * setup.size;
    let store_length = setup.domains * setup.pages * setup.size;
    let mut lent = Lent {
        tables: &mut tables,
        saved: &mut saved[..saved_length],
        frames: &mut frames[..frames_length],
        store: &mut store[..store_length],
        answer: &mut answer,
    };
    write_lines(rt, trace, opened, &mut lent, out)
}

// The listing of a trace.
fn list(rt: &impl Print, trace: &[u8]) -> io::Result<()> {
    let mut out = [0u8; ROOM];
    match listing::opening(trace) {
        Ok(opened) => list_records(rt, trace, opened, &mut out),
        Err(refusal) => {
            let count = listing::refusal(refusal.into(), &mut out);
            rt.write_all(&out[..count])
        }
    }
}

fn main(rt: HostRuntime) {
    // one byte more than a trace may have, so that a longer one is seen to be too long
    let mut buf = [0u8; LIMIT + 1];
    if let Ok(count) = read_all(&mut rt.stdin(), &mut buf) {
        // where the output is closed early, no more lines are asked for
        let _ = list(&rt, &buf[..count]);
    }
}
