// The slots of the graphs of a rule table.
ghost use Rattle.charts.specs.Slots.{byte_of};
ghost use Rattle.std.specs.Prelude.{◌≡◌};

// How many bytes there are, and so how many edges of the graphs belong to one state.
pub(crate) const BYTES: usize = 256;

// The byte that a slot stands for, in the forward and in the backward graph. A function and no conversion: a slot is a
// number like any other.
pub fn byte_of(slot: usize) -> u8
    ensures { result ≡ byte_of slot }
{
    (slot % BYTES) as u8
}
