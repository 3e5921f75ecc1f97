// The loaded table: the table that an image wrote down, kept as the image has it.
ghost use Rattle.std.specs.Prelude.{◌≡◌, ℕ, ◌+◌, ◌*◌, ◌<◌, ◌≤◌, slice_index, slice_index_or};

mod answers;
mod load;

// The most states and classes of an image, and the most steps that they make.
pub const MAX_STATES: usize = 128;

pub const MAX_CLASSES: usize = 64;

const MAX_STEPS: usize = 8192;

// Every byte has a class.
const BYTES: usize = 256;

// A rule table loaded from an image. It has the class of each byte, and for each state a row of next states,
// one for each class. No step leads to a state that it lacks. The library allocates nothing: each list lies in an array
// of the most that there can be, and the two sizes tell how much of it is in use.
#[derive(Drop)]
pub struct LoadedTable {
    states: usize,
    classes: usize,
    class_of: [u8; BYTES],
    labels: [u8; MAX_STATES],
    steps: [u8; MAX_STEPS],
    ghost some_state: { 1 ≤ states },
    ghost few_states: { states ≤ 128 },
    ghost few_classes: { classes ≤ 64 },
    ghost classes_inside: { (b : ℕ) → b < 256 → slice_index_or class_of b 0 < classes },
    ghost labels_are_bytes: { (s : ℕ) → s < states → slice_index labels s < 256 },
    ghost steps_inside: { (i : ℕ) → i < states * classes → slice_index steps i < states },
}
