// The inspector's look at pages that are Sealed, Clear and Public, and at numbers past the small setup's bounds.
use crate::world::World;
use rules::{Asid, Ctc, Event, Gvpn};
use std::io;

// Page 0 is Sealed and page 1 is Clear.
static LOOKS: [(&str, Asid, Gvpn); 6] = [
    ("Sealed", Asid(0), Gvpn(0)),
    ("Clear", Asid(0), Gvpn(1)),
    ("page 2", Asid(0), Gvpn(2)),
    ("page 255", Asid(0), Gvpn(255)),
    ("domain 1", Asid(1), Gvpn(0)),
    ("domain 255", Asid(255), Gvpn(0)),
];

// Page 1 uncloaked is Public.
pub fn all(rt: &impl Print) -> io::Result<()> {
    let mut world = World::base();
    for &(name, d, v) in &LOOKS {
        world.look(rt, name, d, v)?;
    }
    world.after(Event::Uncloak(Ctc(0), Gvpn(1)), b"");
    world.look(rt, "Public", Asid(0), Gvpn(1))
}
