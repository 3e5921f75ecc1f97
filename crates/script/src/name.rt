// The names of the commands.
ghost use Rattle.script.specs.Names.{names, spelled};

use crate::spelled::Spelled;

// The name of a question to a table. A `Question` has its operands too, which are read once the name is known.
#[derive(Clone, Copy, PartialEq, Eq, Debug)]
pub enum Asked {
    States,
    Next,
    Label,
    Search,
    Find,
}

// The name of a call on a queue, to a `Request` what `Asked` is to a `Question`.
#[derive(Clone, Copy, PartialEq, Eq, Debug)]
pub enum Requested {
    Count,
    Limit,
    Element,
    Put,
    Drop,
}

// The name of a command: the first word of its line.
#[derive(Clone, Copy, PartialEq, Eq, Debug)]
pub enum Name {
    Share,
    Load,
    Table,
    Ask(Asked),
    Open,
    Make,
    Queue(Requested),
}

impl Spelled for Name {
    ghost spelled = { spelled };

    ghost values = { names };

    fn all() -> &'static [Name] {
        &[
            Name::Share,
            Name::Load,
            Name::Table,
            Name::Ask(Asked::States),
            Name::Ask(Asked::Next),
            Name::Ask(Asked::Label),
            Name::Ask(Asked::Search),
            Name::Ask(Asked::Find),
            Name::Open,
            Name::Make,
            Name::Queue(Requested::Count),
            Name::Queue(Requested::Limit),
            Name::Queue(Requested::Element),
            Name::Queue(Requested::Put),
            Name::Queue(Requested::Drop),
        ]
    }

    fn spelling(self) -> &'static str {
        match self {
            Name::Share => "share",
            Name::Load => "load",
            Name::Table => "table",
            Name::Ask(Asked::States) => "states",
            Name::Ask(Asked::Next) => "next",
            Name::Ask(Asked::Label) => "label",
            Name::Ask(Asked::Search) => "search",
            Name::Ask(Asked::Find) => "find",
            Name::Open => "open",
            Name::Make => "queue",
            Name::Queue(Requested::Count) => "count",
            Name::Queue(Requested::Limit) => "limit",
            Name::Queue(Requested::Element) => "element",
            Name::Queue(Requested::Put) => "put",
            Name::Queue(Requested::Drop) => "drop",
        }
    }
}
