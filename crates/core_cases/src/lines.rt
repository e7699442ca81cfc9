// How a line of the output says what a call left.
use std::fmt;

// Whether words or bytes are as they were before the call.
#[derive(Clone, Copy)]
pub struct Kept(pub bool);

impl fmt::Display for Kept {
    fn fmt<W: fmt::Write>(&self, f: &mut fmt::Formatter<W>) -> fmt::Result {
        f.write_str(if self.0 { "kept" } else { "changed" })
    }
}

// Whether the words that a start was lent are all 0.
#[derive(Clone, Copy)]
pub struct Fresh(pub bool);

impl fmt::Display for Fresh {
    fn fmt<W: fmt::Write>(&self, f: &mut fmt::Formatter<W>) -> fmt::Result {
        f.write_str(if self.0 { "fresh" } else { "not fresh" })
    }
}

// An answer's number, seals, unveils and used.
#[derive(Clone, Copy)]
pub struct Told(pub rules::Answer);

impl fmt::Display for Told {
    fn fmt<W: fmt::Write>(&self, f: &mut fmt::Formatter<W>) -> fmt::Result {
        let answer = self.0;
        write!(
            f,
            "{} {} {} {}",
            answer.number, answer.seals, answer.unveils, answer.used
        )
    }
}
