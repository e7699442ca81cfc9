// What programs in C or Rust link: copying, zeroing and comparing bytes, and the reader, each under a plain name and with a
// contract for every input. Slices come as a pointer and a length.
#![tactic(auto)]

ghost use Rattle.std.specs.Prelude.{◌≡◌, length};
ghost use Rattle.rules.specs.Bytes.{zeros, same_bytes};
ghost use Rattle.exports.specs.Leaves.{copied};
ghost use Rattle.exports.specs.Told.{told, told_of, handed, next_record};

use rules::Refusal;
use trace_form::Fields;
use trace_read::Record;

// Every byte of dst from src, where src is as long; else none.
#[tactic(auto, unfolding(crate::specs::Leaves::copied))]
#[unsafe(no_mangle)]
pub extern "C" fn leaf_copy(dst: &mut [u8], src: &[u8])
    ensures { dst.new ≡ copied src.now dst.old }
{
    if src.len() == dst.len() {
        core_bytes::copy(dst, src);
    }
}

// Every byte of dst 0.
#[unsafe(no_mangle)]
pub extern "C" fn leaf_zero(dst: &mut [u8])
    ensures { dst.new ≡ zeros (length dst.old) }
{
    core_bytes::zero(dst);
}

// Whether a and b hold the same bytes; of two lengths they don't.
#[unsafe(no_mangle)]
pub extern "C" fn leaf_same(a: &[u8], b: &[u8]) -> bool
    ensures { result ≡ same_bytes a.now b.now }
{
    core_bytes::same(a, b)
}

// What was found, in nine numbers: the C interface has no enum.
fn numbers_of(found: Result<Option<Record>, Refusal>) -> [usize; 9]
    ensures { result ≡ told found }
{
    match found {
        Ok(Some(record)) => numbers_in(record),
        Ok(None) => [0; 9],
        Err(refusal) => [u8::from(refusal) as usize, 0, 0, 0, 0, 0, 0, 0, 0],
    }
}

fn numbers_in(found: Record) -> [usize; 9]
    ensures { result ≡ told_of found }
{
    let Record {
        event,
        start,
        len,
        next: _,
    } = found;
    let kind = event.kind() as usize;
    let v = Fields::of(event);
    let first = v.first as usize;
    let second = v.second as usize;
    let third = v.third as usize;
    let off = v.span.off;
    let wide = v.span.len;
    [0, kind, first, second, third, off, wide, start, len]
}

// Reads the record that the unread bytes begin with, where their place is place: says in nine numbers what it found, and
// answers the place behind it; the same place where no record was read.
#[unsafe(no_mangle)]
pub extern "C" fn next_record(unread: &[u8], place: usize, out: &mut [usize; 9]) -> usize
    ensures { handed result out.new ≡ next_record unread.now place }
{
    let found = trace_read::record_at(unread, place);
    *out = numbers_of(found);
    trace_read::place_after(place, found)
}
