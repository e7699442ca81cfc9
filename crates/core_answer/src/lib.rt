// The answer that tells of an event: the functions that do events end in one of these.
#![tactic(auto)]

ghost use Rattle.std.specs.Prelude.{◌≡◌, length};
ghost use Rattle.core_tables.specs.Image.{image_words};
ghost use Rattle.core_answer.specs.Promises.{Tells, Refuses};

mod lent;

pub use lent::{Given, Lent};
use rules::{Answer, Refusal};

// An event that was done (0) or whose unveiling failed (8): the words and the counts are those that it leaves.
#[tactic(auto, using(core_tables::proofs::Images::canonical_image, core_tables::proofs::Registers::saved_image))]
pub fn told(tables: &[u16], number: u8, seals: u8, unveils: u8) -> Answer
    requires { length tables.now ≡ image_words }
    ensures { Tells tables.now number seals unveils result }
{
    Answer {
        number,
        seals,
        unveils,
        used: core_tables::used_at(tables),
    }
}

// An event that was refused: 10 tells nothing of the tables, and asks nothing of them. The number is a u8 and no `Refusal`, here and
// above, since each function is public and takes any.
#[tactic(auto, unfolding(rules::specs::Answers::refused))]
pub fn refused(tables: &[u16], number: u8) -> Answer
    requires { (number ≡ 10 → ⊥) → length tables.now ≡ image_words }
    ensures { Refuses tables.now number result }
{
    let used = if number == u8::from(Refusal::NotAcceptable) {
        0
    } else {
        core_tables::used_at(tables)
    };
    Answer {
        number,
        seals: 0,
        unveils: 0,
        used,
    }
}
