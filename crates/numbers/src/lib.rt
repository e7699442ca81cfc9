// Big-endian numbers of at most eight bytes, loaded from bytes and stored in them. A register is such a number, and so is
// the head of a trace's record. A reader's definitions are those of the rules (specs/Bytes.antt there).
#![tactic(auto)]

ghost use Rattle.std.specs.Prelude.{◌≡◌, ◌++◌, ◌≤◌, length, take, drop};
ghost use Rattle.rules.specs.Bytes.{big_endian, number};

// The number that the first k bytes are, byte by byte.
#[tactic(auto, unfolding(rules::specs::Bytes::number))]
fn by_bytes(bytes: &[u8], k: usize) -> u64
    requires { (k ≤ 8) × (k ≤ length bytes.now) }
    ensures { result ≡ number (take k bytes.now) }
{
    let mut n: u64 = 0;
    for &b in &bytes[..k] {
        n = n * 256 + b as u64;
    }
    n
}

// The number that the first k bytes are. Where there are eight, all of them are loaded and those behind the k are shifted
// out: that is one load, where a loop of k would be mispredicted.
pub fn load(bytes: &[u8], k: usize) -> u64
    requires { (1 ≤ k) × (k ≤ 8) × (k ≤ length bytes.now) }
    ensures { result ≡ number (take k bytes.now) }
{
    match bytes.first_chunk::<8>() {
        Some(eight) => u64::from_be_bytes(*eight) >> (64 - 8 * k),
        None => by_bytes(bytes, k),
    }
}

// The k bytes of n over the front of out, from the last to the first: each is what the ones after it leave. No `to_be_bytes`, which
// has eight: k may be any number.
#[tactic(auto, unfolding(rules::specs::Bytes::big_endian))]
pub fn store(out: &mut [u8], k: usize, n: u64)
    requires { k ≤ length out.old }
    ensures { out.new ≡ big_endian k n ++ drop k out.old }
{
    let mut rest = n;
    for i in (0..k).rev() {
        out[i] = (rest % 256) as u8;
        rest /= 256;
    }
}
