// What an event is handed beside its kind and its numbers, in two parts: what it goes by, and what it may change.
use rules::Setup;

// The setup, the supply of signatures, and the event's data.
#[derive(Clone, Copy)]
pub struct Given<'a> {
    pub setup: Setup,
    pub supply: &'a [u8],
    pub data: &'a [u8],
}

// The lent tables, saved registers, frames and store, and the buffer for the answer. A function that is handed them takes them apart
// first: of a field that is lent to a call as it stands in the struct, the check keeps the length and not what it holds.
#[derive(Drop)]
pub struct Lent<'a> {
    pub tables: &'a mut [u16],
    pub saved: &'a mut [u64],
    pub frames: &'a mut [u8],
    pub store: &'a mut [u8],
    pub answer: &'a mut [u8],
}
