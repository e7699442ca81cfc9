// The writer: a trace's header, and its records one after the other, each at the front of the output that it is lent.
#![tactic(auto)]

ghost use Rattle.std.specs.Prelude.{◌≡◌, ◌++◌, ◌+◌, ◌^◌, ◌≤◌, ◌<◌, length, ltb};
ghost use Rattle.trace_bits.specs.Packing.{join};
ghost use Rattle.rules.specs.Bytes.{overlay, big_endian};
ghost use Rattle.rules.specs.Asked.{Limited};
ghost use Rattle.rules.specs.Refusals.{number_in};
ghost use Rattle.trace_form.specs.Form.{Right, first};
ghost use Rattle.trace_form.specs.Bounds.{Laid};
ghost use Rattle.trace_form.specs.Header.{header_widths, setup_values};
ghost use Rattle.trace_write.specs.Writing.{left, header_refusal, write_header, numbers_fit, span_fits, refusal_of, write_record};

use rules::{Event, Refusal, Setup, Span};
use trace_bits::Packed;
use trace_form::{Fields, Form, Head, Widths};

const MAX_OFF: usize = 4095;

const MAX_LEN: usize = 4096;

// The k bytes of n, then the others, over the front of out.
fn put(k: usize, n: usize, others: &[u8], out: &mut [u8]) -> usize
    requires { k + length others.now ≤ length out.old }
    ensures value { result ≡ k + length others.now }
    ensures out_after { out.new ≡ overlay 0 (big_endian k n ++ others.now) out.old }
{
    numbers::store(out, k, n as u64);
    let end = k + others.len();
    out[k..end].copy_from_slice(others);
    end
}

// The number that a header's sizes spell.
fn packed_setup(setup: Setup) -> usize
    requires { Limited setup }
    ensures { result ≡ join 0 header_widths (setup_values setup) }
{
    Packed::none()
        .with(Form::SIZE, setup.size / Setup::SIZE_UNIT - 1)
        .with(Form::DOMAIN, setup.domains - 1)
        .with(Form::PAGE, setup.pages - 1)
        .with(Form::CONTEXT, setup.contexts - 1)
        .with(Form::FRAME, setup.frames - 1)
        .with(Form::SIGNATURES, setup.signatures)
        .with(Form::SPARE, 0)
        .number
}

// Refuses a header that cannot be written with that supply to room bytes.
#[tactic(auto, unfolding(crate::proofs::Opening::the_header_checks))]
fn check_header(setup: Setup, supply: &[u8], room: usize) -> Result<(), Refusal>
    ensures { number_in result ≡ header_refusal setup supply.now room }
{
    if !setup.in_range() || supply.len() != setup.signatures * setup.size {
        return Err(Refusal::NotAcceptable);
    }
    if room < Form::HEADER || room - Form::HEADER < supply.len() {
        return Err(Refusal::NoRoom);
    }
    Ok(())
}

// The header of a trace with its signatures, at the front of out. How many bytes that is; where it is refused, out stays.
pub fn write_header(setup: Setup, supply: &[u8], out: &mut [u8]) -> Result<usize, Refusal>
    ensures { left result out.new ≡ write_header setup supply.now out.old }
{
    check_header(setup, supply, out.len())?;
    Ok(put(Form::HEADER, packed_setup(setup), supply, out))
}

fn fits(width: usize, value: u8) -> bool
    requires { width ≤ 8 }
    ensures { result ≡ ltb value (2 ^ width) }
{
    (value as usize) < 1 << width
}

#[tactic(auto, unfolding(crate::specs::Writing::numbers_fit, rules::specs::Bytes::all_of))]
fn numbers_fit(head: Head, v: Fields) -> bool
    requires { Laid head }
    ensures { result ≡ numbers_fit head.widths v }
{
    let w = head.widths;
    fits(w.first, v.first) && fits(w.second, v.second) && fits(w.third, v.third)
}

#[tactic(auto, unfolding(crate::specs::Writing::span_fits, rules::specs::Bytes::all_of))]
fn span_fits(span: Span) -> bool
    ensures { result ≡ span_fits span }
{
    0 < span.len && span.len <= MAX_LEN && span.off <= MAX_OFF
}

// Refuses a record that cannot be written with n bytes of data, where want are wanted, to room bytes.
#[tactic(auto, unfolding(crate::proofs::Opening::the_record_checks))]
fn check_record(head: Head, v: Fields, want: usize, n: usize, room: usize) -> Result<(), Refusal>
    requires { Laid head }
    ensures { number_in result ≡ refusal_of head v want n room }
{
    if !numbers_fit(head, v) {
        return Err(Refusal::OutOfRange);
    }
    if !span_fits(v.span) || n != want {
        return Err(Refusal::BadLength);
    }
    if room < head.bytes || room - head.bytes < n {
        return Err(Refusal::NoRoom);
    }
    Ok(())
}

// The record of an event with its data, in any form, at the front of out. How many bytes that is; where it is refused, out stays.
fn write_in(form: Form, event: Event, new: &[u8], out: &mut [u8]) -> Result<usize, Refusal>
    requires { Right form }
    ensures { left result out.new ≡ write_record form event new.now out.old }
{
    let kind = event.kind() as usize;
    let head = form.head(kind);
    let v = Fields::of(event);
    check_record(head, v, event.data_length(), new.len(), out.len())?;
    Ok(put(head.bytes, head.packed(kind, v), new, out))
}

// The record of an event with its data, at the front of out. How many bytes that is; where it is refused, out stays.
pub fn write_record(event: Event, new: &[u8], out: &mut [u8]) -> Result<usize, Refusal>
    ensures { left result out.new ≡ write_record first event new.now out.old }
{
    write_in(Form::FIRST, event, new, out)
}
