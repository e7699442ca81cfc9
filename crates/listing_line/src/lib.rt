// A line of the listing, written over an output from a place on: an event's, and that of a record or header which is refused.
// The inner layer under `listing`: each function asks that there is room, and its callers show it.
#![tactic(auto)]

ghost use Rattle.std.specs.Prelude.{◌≡◌, ◌+◌, ◌*◌, ◌≤◌, ◌<◌, [], ◌∷◌, ◌++◌, length};
ghost use Rattle.io.specs.Digits.{hex_digit_ascii};
ghost use Rattle.listing_line.specs.Lines.{newline, dash, decimal, hex as hex_of, last_field, field_then, counts_then, line};
ghost use Rattle.listing_line.specs.Lines.{refused_line, Put};
ghost use Rattle.listing_line.specs.Writing.{Room, Writes};

use rules::Answer;

// A hex digit. Not by a table of the sixteen: with one, which the compiler does not turn into vectors, a trace of kernel reads takes 2.75
// times as long.
fn digit(d: u8) -> u8
    requires { d < 16 }
    ensures { result ≡ hex_digit_ascii d }
{
    if d < 10 { b'0' + d } else { b'a' + (d - 10) }
}

// An output, and the place up to which it is written.
#[derive(Drop)]
struct Cursor<'a> {
    out: &'a mut [u8],
    at: usize,
}

impl Cursor<'_> {
    // Two bytes.
    fn pair(&mut self, first: u8, second: u8)
        requires { Room 2 self.old }
        ensures { Writes (first ∷ second ∷ []) 2 self.old self.new }
    {
        self.out[self.at] = first;
        self.out[self.at + 1] = second;
        self.at += 2;
    }

    // A decimal number, and a space. Most are one digit.
    fn number(&mut self, n: u64)
        requires { Room 21 self.old }
        ensures { Writes (field_then (decimal n) []) 21 self.old self.new }
    {
        if n < 10 {
            self.pair(b'0' + n as u8, b' ');
            return;
        }
        let mut text = [0u8; 20];
        let count = io::decimal(n, &mut text);
        core_bytes::put(self.out, self.at, &text[..count]);
        self.out[self.at + count] = b' ';
        self.at += count + 1;
    }

    // Bytes in hex: two digits for each.
    fn hex(&mut self, bytes: &[u8])
        requires { Room (2 * length bytes.now) self.old }
        ensures { Writes (hex_of bytes.now) (2 * length bytes.now) self.old self.new }
    {
        for b in bytes {
            self.pair(digit(b / 16), digit(b % 16));
        }
    }

    // The last field and the newline.
    fn last(&mut self, shown: &[u8])
        requires { Room (2 + 2 * length shown.now) self.old }
        ensures { Writes (last_field shown.now ++ (newline ∷ [])) (2 + 2 * length shown.now) self.old self.new }
    {
        if shown.is_empty() {
            self.pair(b'-', b'\n');
            return;
        }
        self.hex(shown);
        self.out[self.at] = b'\n';
        self.at += 1;
    }

    // An answer's four numbers, and a space behind each.
    fn counts(&mut self, answer: Answer)
        requires { Room 84 self.old }
        ensures { Writes (counts_then answer []) 84 self.old self.new }
    {
        self.number(answer.number as u64);
        self.number(answer.seals as u64);
        self.number(answer.unveils as u64);
        self.number(answer.used as u64);
    }
}

// The line of an event: what it shows of its answer's bytes, or nothing. This and `refused_line` are public, and their promise (`Put`) is
// of bytes and places: so they take an output and a place, and make the cursor.
pub fn event_line(
    out: &mut [u8],
    at: usize,
    index: usize,
    kind: u8,
    answer: Answer,
    shown: &[u8],
) -> usize
    requires { at + 128 + 2 * length shown.now ≤ length out.old }
    ensures put { Put at (line index (decimal kind) answer shown.now) out.old result out.new }
    ensures within { result ≤ at + 128 + 2 * length shown.now }
{
    let mut cursor = Cursor { out, at };
    cursor.number(index as u64);
    cursor.number(kind as u64);
    cursor.counts(answer);
    cursor.last(shown);
    cursor.at
}

// The line of a record or a header that is refused: why is any number, since `listing::refusal` takes any.
pub fn refused_line(out: &mut [u8], at: usize, index: usize, why: u8, used: u16) -> usize
    requires { at + 128 ≤ length out.old }
    ensures put { Put at (refused_line index why used) out.old result out.new }
    ensures within { result ≤ at + 128 }
{
    let answer = Answer {
        number: why,
        seals: 0,
        unveils: 0,
        used,
    };
    let mut cursor = Cursor { out, at };
    cursor.number(index as u64);
    cursor.pair(b'-', b' ');
    cursor.counts(answer);
    cursor.pair(b'-', b'\n');
    cursor.at
}
