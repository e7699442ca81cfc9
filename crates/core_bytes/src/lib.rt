// Bytes: copied, made zero and compared, whole or on one page of a buffer; and a span of bytes within a page.
// The inner layer under sealing and events: each function asks that what it is handed fits, and its callers show it.
#![tactic(auto)]

ghost use Rattle.std.specs.Prelude.{◌≡◌, ◌+◌, ◌*◌, ◌≤◌, ◌<◌, length, take, drop, eqb};
ghost use Rattle.rules.specs.Bytes.{part, with_part, overlay, zeros, same_bytes};

// The lengths of the blocks in which bytes are compared.
const LEAST: usize = 4;

const SMALL: usize = 16;

const MIDDLE: usize = 64;

const LARGE: usize = 256;

// Every byte of dst from src, which is as long.
pub fn copy(dst: &mut [u8], src: &[u8])
    requires { length src.now ≡ length dst.old }
    ensures { dst.new ≡ src.now }
{
    dst.copy_from_slice(src);
}

// Every byte of dst 0. No `fill(0)`: it writes the last byte apart, and takes 1.2 to 2 times as long at 16 to 1,024 bytes.
#[tactic(auto, unfolding(rules::specs::Bytes::zeros))]
pub fn zero(dst: &mut [u8])
    ensures { dst.new ≡ zeros (length dst.old) }
{
    for byte in dst {
        *byte = 0;
    }
}

// Whether a and b hold the same bytes. Few bytes are compared in small blocks, so that none are left over: a page's length
// is a multiple of 16. No `a == b`: it takes 1.4 times as long at 4,096 bytes, and 1.1 to 1.6 times at fewer.
pub fn same(a: &[u8], b: &[u8]) -> bool
    ensures { result ≡ same_bytes a.now b.now }
{
    let count = a.len();
    if count != b.len() {
        return false;
    }
    if count < MIDDLE {
        return same_few(a, b);
    }
    same_many(a, b)
}

// The same of a and b of one length, which are few. What is left over behind the blocks goes in smaller ones: byte by byte, 15
// bytes take 1.6 times the instructions.
fn same_few(a: &[u8], b: &[u8]) -> bool
    requires { length a.now ≡ length b.now }
    ensures { result ≡ same_bytes a.now b.now }
{
    let whole = a.len() / SMALL * SMALL;
    let (p, x) = a.split_at(whole);
    let (q, y) = b.split_at(whole);
    same_blocks::<SMALL>(p, q) && (x.is_empty() || same_blocks::<LEAST>(x, y))
}

// The same of a and b of one length, which are more. It is no part of `same`, or a few bytes would pay too for the registers
// that its loops save.
#[inline(never)]
fn same_many(a: &[u8], b: &[u8]) -> bool
    requires { length a.now ≡ length b.now }
    ensures { result ≡ same_bytes a.now b.now }
{
    if a.len() < LARGE {
        return same_blocks::<MIDDLE>(a, b);
    }
    same_blocks::<LARGE>(a, b)
}

// The same of a and b of one length: block by block, up to the first that differs, and then what is left over. That b is
// cut to the length of a tells the compiler that they are of one length.
fn same_blocks<const N: usize>(a: &[u8], b: &[u8]) -> bool
    requires { (length a.now ≡ length b.now) × (0 < N) × (N ≤ 256) }
    ensures { result ≡ same_bytes a.now b.now }
{
    let (xs, x) = a.as_chunks::<N>();
    let (ys, y) = b[..a.len()].as_chunks::<N>();
    for (p, q) in xs.iter().zip(ys) {
        if differing(p, q) != 0 {
            return false;
        }
    }
    differing(x, y) == 0
}

// The bits in which a byte of a differs from that of b, of all bytes in one. It goes to the end whatever it meets, since
// the compiler vectorises no loop that tests each byte.
#[tactic(auto, unfolding(rules::specs::Bytes::same_bytes))]
fn differing(a: &[u8], b: &[u8]) -> u8
    requires { length a.now ≡ length b.now }
    ensures { eqb result 0 ≡ same_bytes a.now b.now }
{
    let mut bits: u8 = 0;
    for (x, y) in a.iter().zip(b) {
        bits |= x ^ y;
    }
    bits
}

// The bytes of dst from at on become src.
pub fn put(dst: &mut [u8], at: usize, src: &[u8])
    requires { at + length src.now ≤ length dst.old }
    ensures { dst.new ≡ overlay at src.now dst.old }
{
    let end = at + src.len();
    copy(&mut dst[at..end], src);
}

// Page k of bytes, itself and not a copy.
pub fn page(bytes: &[u8], size: usize, k: usize) -> &[u8]
    requires { k * size + size ≤ length bytes.now }
    ensures { result.now ≡ part size k bytes.now }
{
    let start = k * size;
    let end = start + size;
    &bytes[start..end]
}

// Page k of bytes becomes from.
pub fn copy_page(bytes: &mut [u8], size: usize, k: usize, from: &[u8])
    requires { (length from.now ≡ size) × (k * size + size ≤ length bytes.old) }
    ensures { bytes.new ≡ with_part size k from.now bytes.old }
{
    let start = k * size;
    let end = start + size;
    copy(&mut bytes[start..end], from);
}

// Page k of bytes becomes zero.
pub fn zero_page(bytes: &mut [u8], size: usize, k: usize)
    requires { k * size + size ≤ length bytes.old }
    ensures { bytes.new ≡ with_part size k (zeros size) bytes.old }
{
    let start = k * size;
    let end = start + size;
    zero(&mut bytes[start..end]);
}

// Whether page k of bytes is with.
pub fn same_page(bytes: &[u8], size: usize, k: usize, with: &[u8]) -> bool
    requires { k * size + size ≤ length bytes.now }
    ensures { result ≡ same_bytes (part size k bytes.now) with.now }
{
    same(page(bytes, size, k), with)
}

// The bytes of page k from off on become new.
pub fn put_span(bytes: &mut [u8], size: usize, k: usize, off: usize, new: &[u8])
    requires { (off + length new.now ≤ size) × (k * size + size ≤ length bytes.old) }
    ensures { bytes.new
        ≡ with_part size k (overlay off new.now (part size k bytes.old)) bytes.old }
{
    let start = k * size;
    let end = start + size;
    put(&mut bytes[start..end], off, new);
}

// The first len bytes of answer become those of page k from off on.
pub fn give_span(bytes: &[u8], size: usize, k: usize, off: usize, len: usize, answer: &mut [u8])
    requires { (off + len ≤ size) × (k * size + size ≤ length bytes.now) × (len ≤ length answer.old) }
    ensures { answer.new ≡ overlay 0 (take len (drop off (part size k bytes.now))) answer.old }
{
    let from = page(bytes, size, k);
    let end = off + len;
    put(answer, 0, &from[off..end]);
}
