// Bit fields of any width, most significant bit first, in one number: they are taken out of it by shifts, and the number is
// built from them one by one.
#![tactic(auto)]

ghost use Rattle.std.specs.Prelude.{◌≡◌, ◌+◌, ◌/◌, ◌%◌, ◌^◌, ◌<◌};
ghost use Rattle.trace_bits.specs.Packing.{Bare, Room, Longer};

// The field of that width which has below bits of the number after it.
pub fn field(n: usize, below: usize, width: usize) -> usize
    requires { (below < 64) × (width < 64) }
    ensures { result ≡ n / 2 ^ below % 2 ^ width }
{
    let q = n >> below;
    q - ((q >> width) << width)
}

// A number that fields are written into, one behind the other, and how many bits it has by now.
#[derive(Clone, Copy)]
pub struct Packed {
    pub number: usize,
    pub bits: usize,
}

impl Packed {
    // Nothing packed yet. A `Default` would be no plainer, and its name would not say so.
    pub fn none() -> Packed
        ensures { Bare result }
    {
        Packed { number: 0, bits: 0 }
    }

    // With one field more behind the others.
    pub fn with(self, width: usize, value: usize) -> Packed
        requires { Room self width value }
        ensures { Longer self width value result }
    {
        Packed {
            number: (self.number << width) + value,
            bits: self.bits + width,
        }
    }
}
