// The saved registers, lent as eight words for each context of the setup.
ghost use Rattle.std.specs.Prelude.{◌≡◌, ◌*◌, ◌<◌, ◌≤◌, length, get_or, set};
ghost use Rattle.rules.specs.Bytes.{zeros};
ghost use Rattle.rules.specs.Sizes.{max_contexts};
ghost use Rattle.rules.specs.Records.{zero_registers};
ghost use Rattle.core_tables.specs.Image.{saved_in};

use rules::Registers;

// The saved registers of context i, themselves and not a copy; there are n contexts.
pub fn saved_at(saved: &[u64], n: usize, i: usize) -> &[u64]
    requires { (length saved.now ≡ 8 * n) × (n ≤ max_contexts) × (i < n) }
    ensures { result.now ≡ (get_or (saved_in n saved.now) i zero_registers).words }
{
    let at = 8 * i;
    let end = at + 8;
    &saved[at..end]
}

// Every word 0: as freshly started.
#[tactic(auto, unfolding(rules::specs::Bytes::zeros))]
pub fn zero(saved: &mut [u64])
    ensures { saved.new ≡ zeros (length saved.old) }
{
    saved.fill(0);
}

// The saved registers of context i, as the value that the rules speak of.
pub fn registers_at(saved: &[u64], n: usize, i: usize) -> Registers
    requires { (length saved.now ≡ 8 * n) × (n ≤ max_contexts) × (i < n) }
    ensures { result.words ≡ (get_or (saved_in n saved.now) i zero_registers).words }
{
    let mut words = [0u64; 8];
    words.copy_from_slice(saved_at(saved, n, i));
    Registers { words }
}

pub fn put_saved(saved: &mut [u64], n: usize, i: usize, words: &[u64])
    requires { (length saved.old ≡ 8 * n) × (n ≤ max_contexts) × (i < n) × (length words.now ≡ 8) }
    ensures { saved_in n saved.new ≡ set (saved_in n saved.old) i (record { words = words.now }) }
{
    let at = 8 * i;
    let end = at + 8;
    saved[at..end].copy_from_slice(words);
}

// The registers of context i zero.
pub fn clear_saved(saved: &mut [u64], n: usize, i: usize)
    requires { (length saved.old ≡ 8 * n) × (n ≤ max_contexts) × (i < n) }
    ensures { saved_in n saved.new ≡ set (saved_in n saved.old) i zero_registers }
{
    let words = [0u64; 8];
    put_saved(saved, n, i, &words);
}
