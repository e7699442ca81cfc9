// What sealing and unveiling are made of: the number of the signature, and the bytes that move between frames and store. Each part of
// what is lent comes with the number of its page: a struct of the six would be made for one call.
#![tactic(auto)]

ghost use Rattle.std.specs.Prelude.{◌≡◌, ◌+◌, ◌*◌, ◌<◌, ◌≤◌, length};
ghost use Rattle.rules.specs.Sizes.{max_signatures};
ghost use Rattle.rules.specs.Sealing.{sealed_with, takes};
ghost use Rattle.core_seal_bytes.specs.Moved.{SealedBytes, UnveiledBytes};

use rules::Wear;

// The number of the signature that a page is sealed with.
#[tactic(auto, unfolding(rules::specs::Sealing::sealed_with))]
pub fn sealed_with(used: u16, wear: Wear) -> u16
    ensures { result ≡ sealed_with used wear }
{
    match wear {
        Wear::Dirty => used,
        Wear::Clean(k) => k,
    }
}

// The count of used signatures after it.
#[tactic(auto, unfolding(rules::specs::Sealing::sealed_with, rules::specs::Sealing::takes))]
pub fn used_after(used: u16, wear: Wear) -> u16
    requires { sealed_with used wear < max_signatures }
    ensures { result ≡ used + takes wear }
{
    match wear {
        Wear::Dirty => used + 1,
        Wear::Clean(_) => used,
    }
}

// Frame f is copied to its page's slot, and filled with signature k.
#[tactic(auto, using(rules::proofs::Parts::length_part))]
pub fn seal_bytes(
    size: usize,
    frames: &mut [u8],
    store: &mut [u8],
    supply: &[u8],
    f: usize,
    slot: usize,
    k: usize,
)
    requires { (f * size + size ≤ length frames.old) × (slot * size + size ≤ length store.old)
        × (k * size + size ≤ length supply.now) }
    ensures { SealedBytes size f slot k supply.now frames.old store.old frames.new
        store.new }
{
    core_bytes::copy_page(store, size, slot, core_bytes::page(frames, size, f));
    core_bytes::copy_page(frames, size, f, core_bytes::page(supply, size, k));
}

// Where frame f holds signature k, the slot is copied over it: whether it did.
#[tactic(auto, using(rules::proofs::Parts::length_part))]
pub fn unveil_bytes(
    size: usize,
    frames: &mut [u8],
    store: &[u8],
    supply: &[u8],
    f: usize,
    slot: usize,
    k: usize,
) -> bool
    requires { (f * size + size ≤ length frames.old) × (slot * size + size ≤ length store.now)
        × (k * size + size ≤ length supply.now) }
    ensures { UnveiledBytes size f slot k supply.now store.now frames.old result frames.new }
{
    if core_bytes::same_page(frames, size, f, core_bytes::page(supply, size, k)) {
        core_bytes::copy_page(frames, size, f, core_bytes::page(store, size, slot));
        true
    } else {
        false
    }
}
