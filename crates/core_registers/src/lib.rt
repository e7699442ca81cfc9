// Eight 64-bit registers, in and out of bytes, and what of them is shown at a trap and given back at a resume.
// Numbers are big-endian. A reader's definitions are those of the rules (specs/Bytes.antt and specs/Events.antt there).
#![tactic(auto)]

ghost use Rattle.std.specs.Prelude.{◌≡◌, cond, ◌<◌, ◌≤◌, length};
ghost use Rattle.rules.specs.Bytes.{number, words_in, bytes_of, overlay};
ghost use Rattle.rules.specs.Events.{shows, shown, resumed};

use rules::{Activity, Registers, TrapKind};

// The number that eight bytes are.
pub fn word(bytes: &[u8]) -> u64
    requires { length bytes.now ≡ 8 }
    ensures { result ≡ number bytes.now }
{
    numbers::load(bytes, 8)
}

// The eight registers that 64 bytes are.
#[tactic(auto, unfolding(rules::specs::Bytes::words_in))]
pub fn load(bytes: &[u8]) -> Registers
    requires { length bytes.now ≡ 64 }
    ensures { result.words ≡ words_in 8 bytes.now }
{
    let mut words = [0u64; 8];
    for (i, register) in words.iter_mut().enumerate() {
        let from = i * 8;
        *register = word(&bytes[from..from + 8]);
    }
    Registers { words }
}

// The registers' 64 bytes over the front of the answer buffer; the rest stays.
#[tactic(auto, unfolding(rules::specs::Bytes::bytes_of))]
pub fn give(registers: Registers, answer: &mut [u8])
    requires { 64 ≤ length answer.old }
    ensures { answer.new ≡ overlay 0 (bytes_of registers.words) answer.old }
{
    for (i, &x) in registers.words.iter().enumerate() {
        let start = i * 8;
        numbers::store(&mut answer[start..start + 8], 8, x);
    }
}

// Register i as the kernel is shown it at a trap: as zero, unless the mask's bit for it is 1 at a call. The mask's most
// significant bit is register 0's.
#[tactic(auto, unfolding(rules::specs::Events::shows))]
fn seen(kind: TrapKind, mask: u8, i: usize, x: u64) -> u64
    requires { i < 8 }
    ensures { result ≡ cond (shows kind mask i) x 0 }
{
    match kind {
        TrapKind::Call if (mask >> (7 - i)) % 2 == 1 => x,
        TrapKind::Call | TrapKind::Interrupt => 0,
    }
}

// The registers as the kernel is shown them at a trap.
#[tactic(auto, unfolding(rules::specs::Events::shown))]
pub fn shown(kind: TrapKind, mask: u8, registers: Registers) -> Registers
    ensures { result.words ≡ shown kind mask registers.words }
{
    let mut words = registers.words;
    for (i, word) in words.iter_mut().enumerate() {
        *word = seen(kind, mask, i, *word);
    }
    Registers { words }
}

// The registers that a resumed context is given: after a call register 0 is the data value x, else all are as they were.
#[tactic(auto, unfolding(rules::specs::Events::resumed))]
pub fn resumed(activity: Activity, x: u64, registers: Registers) -> Registers
    ensures { result.words ≡ resumed activity x registers.words }
{
    let mut given = registers;
    match activity {
        Activity::Kept(_, TrapKind::Call) => given.words[0] = x,
        Activity::Kept(_, TrapKind::Interrupt) | Activity::Running(_) | Activity::Free => {}
    }
    given
}
