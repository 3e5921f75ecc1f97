// What can be wrong with an image, and what each fault tells.
ghost use Rattle.images.specs.Faults.{letter_of, told};
ghost use Rattle.images.specs.Texts.{early_text, fault_text};
ghost use Rattle.images.specs.declared.faults.LoadFault.TheVariants.{Read};
ghost use Rattle.std.specs.Prelude.{◌≡◌, Some};

use std::error::Error;
use std::fmt;

// The layer that found a fault: the byte reader, or the loader above it.
#[derive(Clone, Copy, PartialEq, Eq, Debug)]
pub enum Layer {
    Reader,
    Loader,
}

impl Layer {
    // The letter of the layer: B for the byte reader, L for the loader. A method and no conversion, as `number` below.
    pub fn letter(self) -> char
        ensures { result ≡ letter_of self }
    {
        match self {
            Layer::Reader => 'B',
            Layer::Loader => 'L',
        }
    }
}

// The fault of the byte reader: the image, of `length` bytes, ends before an entry is whole.
#[derive(Clone, Copy, PartialEq, Eq, Debug)]
pub struct EndsEarly {
    pub length: usize,
}

impl fmt::Display for EndsEarly {
    ghost output = { λ fault. Some (early_text fault) };

    fn fmt<W: fmt::Write>(&self, f: &mut fmt::Formatter<W>) -> fmt::Result {
        write!(f, "image ends early")
    }
}

impl Error for EndsEarly {}

// The fault of the loader, at a place of the image counted from 0. Each variant has its place, and no struct has it
// for all: the byte reader's fault tells the image's length in its stead.
#[derive(Clone, Copy, PartialEq, Eq, Debug)]
pub enum LoadFault {
    // The byte reader's fault, whole.
    Read(EndsEarly),
    // The first count is not 256, or a class is above 63.
    Classes { place: usize },
    // The number of states is 0 or above 128.
    States { place: usize },
    // The third count is not the number of states times the number of classes.
    StepCount { place: usize },
    // A next state is not below the number of states.
    NextState { place: usize },
    // Bytes are left over.
    LeftOver { place: usize },
}

impl LoadFault {
    // The number of the fault, 1 to 6. A method and no conversion: a fault tells it, and is more than it. Of no trait:
    // nothing takes a refusal of any kind.
    pub fn number(self) -> u8
        ensures { result ≡ (told self).number }
    {
        match self {
            LoadFault::Read(_) => 1,
            LoadFault::Classes { .. } => 2,
            LoadFault::States { .. } => 3,
            LoadFault::StepCount { .. } => 4,
            LoadFault::NextState { .. } => 5,
            LoadFault::LeftOver { .. } => 6,
        }
    }

    // The layer that found it.
    pub fn layer(self) -> Layer
        ensures { result ≡ (told self).layer }
    {
        match self {
            LoadFault::Read(_) => Layer::Reader,
            _ => Layer::Loader,
        }
    }

    // The place of the entry at fault; where the image ends early, its length.
    pub fn place(self) -> usize
        ensures { result ≡ (told self).place }
    {
        match self {
            LoadFault::Read(EndsEarly { length }) => length,
            LoadFault::Classes { place }
            | LoadFault::States { place }
            | LoadFault::StepCount { place }
            | LoadFault::NextState { place }
            | LoadFault::LeftOver { place } => place,
        }
    }
}

// By hand and not derived, since clauses name the fault that `?` makes.
impl From<EndsEarly> for LoadFault {
    ghost from_gives = { λ fault r. r ≡ Read fault };

    fn from(fault: EndsEarly) -> LoadFault {
        LoadFault::Read(fault)
    }
}

// The fault in words, without its place.
impl fmt::Display for LoadFault {
    ghost output = { λ fault. Some (fault_text fault) };

    fn fmt<W: fmt::Write>(&self, f: &mut fmt::Formatter<W>) -> fmt::Result {
        match self {
            LoadFault::Read(early) => write!(f, "{early}"),
            LoadFault::Classes { .. } => write!(f, "first count not 256, or class above 63"),
            LoadFault::States { .. } => write!(f, "number of states 0 or above 128"),
            LoadFault::StepCount { .. } => write!(f, "third count not states times classes"),
            LoadFault::NextState { .. } => write!(f, "next state not below the number of states"),
            LoadFault::LeftOver { .. } => write!(f, "bytes left over"),
        }
    }
}

impl Error for LoadFault {}
