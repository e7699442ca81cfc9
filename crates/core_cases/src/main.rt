// The entry points called with wrong things; what comes back is printed, a line a case. After the answer's number, seals, unveils and
// used, a line says which of frames, store, answer buffer, and tables with saved registers are as before (of a start: frames, store, and
// whether the words of the tables and saved registers are all fresh); of a look it has the number, how many bytes are handed back, and
// the bytes.
//
// The cases stand in statics: a function that goes over a const makes the table itself, and its check took four times as long.
#![tactic(auto)]

mod bounds;
mod lengths;
mod lent;
mod lines;
mod looks;
mod unsound;
mod world;

use std::io;

fn main(rt: HostRuntime) -> io::Result<()> {
    lent::all(&rt)?;
    bounds::all(&rt)?;
    lengths::all(&rt)?;
    unsound::all(&rt)?;
    looks::all(&rt)
}
