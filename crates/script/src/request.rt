// What a script asks of queues.
ghost use Rattle.script.specs.Kinds.{kind_spelled, kinds};

use crate::spelled::Spelled;

// A kind of queue.
#[derive(Clone, Copy, PartialEq, Eq, Debug)]
pub enum QueueKind {
    Ring,
    Straight,
}

impl Spelled for QueueKind {
    ghost spelled = { kind_spelled };

    ghost values = { kinds };

    fn all() -> &'static [QueueKind] {
        &[QueueKind::Ring, QueueKind::Straight]
    }

    fn spelling(self) -> &'static str {
        match self {
            QueueKind::Ring => "ring",
            QueueKind::Straight => "straight",
        }
    }
}

// A queue that is to be made: its kind, and how many bytes of memory it is to stand over.
#[derive(Clone, Copy, PartialEq, Eq, Debug)]
pub struct Making {
    pub kind: QueueKind,
    pub length: usize,
}

// The calls on a queue of bytes.
#[derive(Clone, Copy, PartialEq, Eq, Debug)]
pub enum Request {
    Count,
    Limit,
    Element { place: usize },
    Put { byte: u8 },
    Drop { count: usize },
}
