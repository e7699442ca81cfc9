// The form of a record: how wide each kind's fields are, how a head is packed into a number and taken out of one again,
// and which event has which fields. The reader and the writer are both built on it.
#![tactic(auto)]

ghost use Rattle.std.specs.Prelude.{◌≡◌, ◌+◌, ◌^◌, ◌<◌, ◌≤◌};
ghost use Rattle.trace_bits.specs.Packing.{join, split};
ghost use Rattle.trace_form.specs.Form.{Right, numbers, with_span, widths_of, used_bits, head_for, head_of, head_widths};
ghost use Rattle.trace_form.specs.Form.{values, fields_in, padding_in, trap_number, trap_of, no_span, fields, fields_of};
ghost use Rattle.trace_form.specs.Form.{event_of};
ghost use Rattle.trace_form.specs.Bounds.{Laid, Within};

use rules::{Asid, Ctc, Event, Gppn, Gvpn, Span, TrapKind};
use trace_bits::Packed;

// What a trace's form may change: the bits of a kind and of a context, and how many kinds there are.
#[derive(Clone, Copy)]
pub struct Form {
    pub kind: usize,
    pub context: usize,
    pub kinds: usize,
}

impl Form {
    pub const FIRST: Form = Form {
        kind: 4,
        context: Form::CONTEXT,
        kinds: 14,
    };

    // The bits of a context in the first form.
    pub const CONTEXT: usize = 4;

    // The bits of the fields that no form changes.
    pub const DOMAIN: usize = 3;

    pub const PAGE: usize = 5;

    pub const FRAME: usize = 6;

    pub const OFF: usize = 12;

    pub const LEN: usize = 12;

    pub const TRAP: usize = 1;

    pub const MASK: usize = 8;

    // The bits of a header's page size and of its count of signatures, and the zero bits behind them.
    pub const SIZE: usize = 8;

    pub const SIGNATURES: usize = 16;

    pub const SPARE: usize = 6;

    // A header's bytes, without the signatures.
    pub const HEADER: usize = 6;

    // The widths of a kind's fields, case by case. A kind is a number, as the first bits of a record are, here and below: any number is
    // asked for, whether or not it has an event.
    #[tactic(auto, unfolding(crate::specs::Form::widths_of))]
    pub fn widths(self, kind: usize) -> Widths
        ensures { result ≡ widths_of self kind }
    {
        let context = self.context;
        match kind {
            0 | 6 => Widths::numbers(Form::DOMAIN, context, 0),
            1 => Widths::numbers(Form::DOMAIN, 0, 0),
            2 => Widths::numbers(Form::DOMAIN, Form::PAGE, Form::FRAME),
            3 => Widths::numbers(Form::DOMAIN, Form::PAGE, 0),
            4 | 5 => Widths::with_span(Form::FRAME, 0),
            7 => Widths::numbers(context, context, 0),
            8 => Widths::numbers(context, 0, 0),
            9 | 10 => Widths::numbers(context, Form::PAGE, 0),
            11 | 12 => Widths::with_span(context, Form::PAGE),
            13 => Widths::numbers(context, Form::TRAP, Form::MASK),
            _ => Widths::numbers(0, 0, 0),
        }
    }

    // How the head of a record of that kind is laid out.
    #[tactic(auto, using(crate::proofs::Heads::used_at_holds), unfolding(crate::specs::Form::head_of))]
    pub fn head(self, kind: usize) -> Head
        requires { Right self }
        ensures { result ≡ head_of self kind }
    {
        head_for(self.kind, self.widths(kind))
    }
}

// The bits of a kind's fields: up to three numbers, then a span's; 0 where there is no such field.
#[derive(Clone, Copy)]
pub struct Widths {
    pub first: usize,
    pub second: usize,
    pub third: usize,
    pub off: usize,
    pub len: usize,
}

impl Widths {
    fn numbers(first: usize, second: usize, third: usize) -> Widths
        ensures { result ≡ numbers first second third }
    {
        Widths {
            first,
            second,
            third,
            off: 0,
            len: 0,
        }
    }

    fn with_span(first: usize, second: usize) -> Widths
        ensures { result ≡ with_span first second }
    {
        Widths {
            off: Form::OFF,
            len: Form::LEN,
            ..Widths::numbers(first, second, 0)
        }
    }
}

// A record before its data: the bits of its kind, its fields and its padding, and the bytes that they take.
#[derive(Clone, Copy)]
pub struct Head {
    pub kind: usize,
    pub widths: Widths,
    pub padding: usize,
    pub bytes: usize,
}

impl Head {
    // What the padding of a head holds, where the head's bytes spell n.
    pub fn padding_in(self, n: usize) -> usize
        requires { Laid self }
        ensures { result ≡ padding_in (split (head_widths self) n) }
    {
        trace_bits::field(n, 0, self.padding)
    }

    // What the fields of a head hold, where the head's bytes spell n.
    pub fn fields_in(self, n: usize) -> Fields
        requires { Laid self }
        ensures { result ≡ fields_in (split (head_widths self) n) }
    {
        let w = self.widths;
        let after_off = w.len + self.padding;
        let after_third = w.off + after_off;
        let after_second = w.third + after_third;
        let after_first = w.second + after_second;
        let first = trace_bits::field(n, after_first, w.first) as u8;
        let second = trace_bits::field(n, after_second, w.second) as u8;
        let third = trace_bits::field(n, after_third, w.third) as u8;
        let off = trace_bits::field(n, after_off, w.off);
        let less = trace_bits::field(n, self.padding, w.len);
        let span = Span { off, len: less + 1 };
        Fields {
            first,
            second,
            third,
            span,
        }
    }

    // The number that a head of that kind and with those fields spells.
    pub fn packed(self, kind: usize, v: Fields) -> usize
        requires { Laid self × Within self.widths v × (kind < 2 ^ self.kind) }
        ensures { result ≡ join 0 (head_widths self) (values kind v) }
    {
        let w = self.widths;
        Packed::none()
            .with(self.kind, kind)
            .with(w.first, v.first as usize)
            .with(w.second, v.second as usize)
            .with(w.third, v.third as usize)
            .with(w.off, v.span.off)
            .with(w.len, v.span.len - 1)
            .with(self.padding, 0)
            .number
    }
}

fn head_for(kind: usize, widths: Widths) -> Head
    requires { used_bits kind widths ≤ 48 }
    ensures { result ≡ head_for kind widths }
{
    let used = kind + widths.first + widths.second + widths.third + widths.off + widths.len;
    let bytes = (used + 7) / 8;
    Head {
        kind,
        widths,
        padding: 8 * bytes - used,
        bytes,
    }
}

// What a kind's fields hold.
#[derive(Clone, Copy)]
pub struct Fields {
    pub first: u8,
    pub second: u8,
    pub third: u8,
    pub span: Span,
}

impl Fields {
    // What an event's fields hold.
    pub fn of(event: Event) -> Fields
        ensures { result ≡ fields_of event }
    {
        match event {
            Event::Begin(d, c) | Event::Resume(d, c) => Fields::plain(d.0, c.0, 0),
            Event::End(d) => Fields::plain(d.0, 0, 0),
            Event::Map(d, v, f) => Fields::plain(d.0, v.0, f.0),
            Event::Unmap(d, v) => Fields::plain(d.0, v.0, 0),
            Event::KernelRead(f, span) | Event::KernelWrite(f, span) => Fields::spanning(
                f.0, 0, span,
            ),
            Event::Spawn(c, u) => Fields::plain(c.0, u.0, 0),
            Event::Leave(c) => Fields::plain(c.0, 0, 0),
            Event::Cloak(c, v) | Event::Uncloak(c, v) => Fields::plain(c.0, v.0, 0),
            Event::Read(c, v, span) | Event::Write(c, v, span) => Fields::spanning(c.0, v.0, span),
            Event::Trap(c, kind, mask) => Fields::plain(c.0, kind as u8, mask),
        }
    }

    fn plain(first: u8, second: u8, third: u8) -> Fields
        ensures { result ≡ fields first second third no_span }
    {
        let span = Span { off: 0, len: 1 };
        Fields {
            first,
            second,
            third,
            span,
        }
    }

    fn spanning(first: u8, second: u8, span: Span) -> Fields
        ensures { result ≡ fields first second 0 span }
    {
        Fields {
            first,
            second,
            third: 0,
            span,
        }
    }
}

// Any number but 0 is a call's: a function and no `From`, since `u8` and `TrapKind` are both declared elsewhere.
fn trap_of(number: u8) -> TrapKind
    ensures { result ≡ trap_of number }
{
    match number {
        0 => TrapKind::Interrupt,
        _ => TrapKind::Call,
    }
}

// The event of that kind with those fields.
#[tactic(auto, unfolding(crate::specs::Form::event_of))]
pub fn event_of(kind: usize, v: Fields) -> Event
    requires { kind ≤ 13 }
    ensures { result ≡ event_of kind v }
{
    let span = v.span;
    match kind {
        0 => Event::Begin(Asid(v.first), Ctc(v.second)),
        1 => Event::End(Asid(v.first)),
        2 => Event::Map(Asid(v.first), Gvpn(v.second), Gppn(v.third)),
        3 => Event::Unmap(Asid(v.first), Gvpn(v.second)),
        4 => Event::KernelRead(Gppn(v.first), span),
        5 => Event::KernelWrite(Gppn(v.first), span),
        6 => Event::Resume(Asid(v.first), Ctc(v.second)),
        7 => Event::Spawn(Ctc(v.first), Ctc(v.second)),
        8 => Event::Leave(Ctc(v.first)),
        9 => Event::Cloak(Ctc(v.first), Gvpn(v.second)),
        10 => Event::Uncloak(Ctc(v.first), Gvpn(v.second)),
        11 => Event::Read(Ctc(v.first), Gvpn(v.second), span),
        12 => Event::Write(Ctc(v.first), Gvpn(v.second), span),
        _ => Event::Trap(Ctc(v.first), trap_of(v.second), v.third),
    }
}
