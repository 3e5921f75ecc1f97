// Loading: judges an image from front to back, and fills the table only from an image with no fault.
ghost use Rattle.images.specs.Image.{HasFault, WritesDown, number_of_classes, labels_end, number_of_states, steps_end};
ghost use Rattle.images.specs.Judging.{HasSize, Judged, Measured, Reached};
ghost use Rattle.images.specs.Loaded.{table_of};
ghost use Rattle.tables.specs.Table.{Empty, Table};
ghost use Rattle.std.specs.Prelude.{◌≡◌, ◌≤◌, ◌++◌, length, drop, is_ok, Decides, MatchResult};

use crate::faults::LoadFault;
use crate::loaded::{BYTES, LoadedTable, MAX_CLASSES, MAX_STATES, MAX_STEPS};
use crate::reader::Reader;

// Where the classes and the labels of an image begin.
const CLASSES_AT: usize = 2;

const LABELS_AT: usize = 260;

// How large the table is that an image writes down.
#[derive(Clone, Copy)]
struct Size {
    states: usize,
    classes: usize,
}

// Reads the first section: the count of the bytes, and the class of each, below 64. Answers the number of classes.
fn read_classes(reader: &mut Reader) -> Result<usize, LoadFault>
    requires { Reached reader.old 0 }
    ensures { Judged reader.old 258 result reader.new (λ k. (k ≡ number_of_classes reader.old.image) × (k ≤ 64)) }
{
    let fault = |place| LoadFault::Classes { place };
    reader.count()?.judge(|n| n == BYTES, fault)?;
    let mut largest = 0;
    for _ in 0..BYTES {
        let class = reader.byte()?.judge(|n| n < MAX_CLASSES, fault)?;
        largest = largest.max(class);
    }
    Ok(largest + 1)
}

// Reads the number of states, which is 1 to 128.
fn read_state_count(reader: &mut Reader) -> Result<usize, LoadFault>
    requires { Reached reader.old 258 }
    ensures { Judged reader.old 260 result reader.new (λ n. (n ≡ number_of_states reader.old.image) × (n ≤ 128)) }
{
    reader.count()?.judge(
        |n| (1..=MAX_STATES).contains(&n),
        |place| LoadFault::States { place },
    )
}

// Reads the labels, whatever they are.
fn read_labels(reader: &mut Reader, size: Size) -> Result<(), LoadFault>
    requires size { HasSize reader.old.image size.states size.classes }
    requires labels { Reached reader.old 260 }
    ensures { Judged reader.old (labels_end reader.old.image) result reader.new (λ _. Unit {0}) }
{
    reader.skip(size.states)?;
    Ok(())
}

// Reads the third section: the count of the steps, and the next state of each, which is a state of the table.
fn read_steps(reader: &mut Reader, size: Size) -> Result<(), LoadFault>
    requires size { HasSize reader.old.image size.states size.classes }
    requires count { Reached reader.old (labels_end reader.old.image) }
    ensures { Judged reader.old (steps_end reader.old.image) result reader.new (λ _. Unit {0}) }
{
    let Size { states, classes } = size;
    let steps = states * classes;
    reader
        .count()?
        .judge(|n| n == steps, |place| LoadFault::StepCount { place })?;
    for _ in 0..steps {
        reader
            .byte()?
            .judge(|n| n < states, |place| LoadFault::NextState { place })?;
    }
    Ok(())
}

// Sees that nothing is left over.
fn read_end(reader: &Reader) -> Result<(), LoadFault>
    requires { Reached reader.now (steps_end reader.now.image) }
    ensures { Judged reader.now (steps_end reader.now.image) result reader.now (λ _. length reader.now.image ≡ reader.now.place) }
{
    if reader.at_end() {
        Ok(())
    } else {
        Err(LoadFault::LeftOver {
            place: reader.place(),
        })
    }
}

// Judges the whole image, and answers the size of its table.
fn judge(image: &[u8]) -> Result<Size, LoadFault>
    ensures { MatchResult result (λ z. Measured image.now z.states z.classes) (HasFault image.now) }
{
    let mut reader = Reader::new(image);
    let classes = read_classes(&mut reader)?;
    let states = read_state_count(&mut reader)?;
    let size = Size { states, classes };
    read_labels(&mut reader, size)?;
    read_steps(&mut reader, size)?;
    read_end(&reader)?;
    Ok(size)
}

// Copies `from` to the front of `to`. A function of its own: a part of a field that is lent in place, beside what holds
// of all fields together, is not covered by the checker, and a table of its own would be copied once more.
fn copy_front(to: &mut [u8], from: &[u8])
    requires { length from.now ≤ length to.old }
    ensures { to.new ≡ from.now ++ drop (length from.now) to.old }
{
    to[..from.len()].copy_from_slice(from);
}

impl LoadedTable {
    // The empty table: one state, which accepts nothing and which every byte leads back to.
    pub fn empty() -> LoadedTable
        ensures { Empty (table_of result) }
    {
        LoadedTable {
            states: 1,
            classes: 1,
            class_of: [0; BYTES],
            labels: [0; MAX_STATES],
            steps: [0; MAX_STEPS],
        }
    }

    // Fills the table with what an image in order writes down.
    fn fill(&mut self, image: &[u8], size: Size)
        requires { Measured image.now size.states size.classes }
        ensures { WritesDown image.now (table_of self.new) }
    {
        let Size { states, classes } = size;
        let labels_end = LABELS_AT + states;
        let steps_at = labels_end + 2;
        let steps = states * classes;
        self.states = states;
        self.classes = classes;
        copy_front(&mut self.class_of, &image[CLASSES_AT..CLASSES_AT + BYTES]);
        copy_front(&mut self.labels, &image[LABELS_AT..labels_end]);
        copy_front(&mut self.steps, &image[steps_at..steps_at + steps]);
    }

    // Loads the table that `image` writes down, or tells the image's fault and leaves the table as it was.
    pub fn load(&mut self, image: &[u8]) -> Result<(), LoadFault>
        ensures cases { MatchResult result (λ _. WritesDown image.now (table_of self.new)) (λ f. HasFault image.now f × (self.new ≡ self.old)) }
        ensures exact { Decides (is_ok result) ((t : Table) × WritesDown image.now t) }
    {
        let size = judge(image)?;
        self.fill(image, size);
        Ok(())
    }
}
