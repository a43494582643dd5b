// SDF files as they are written: one type for each rule of the grammar that isn't in the tree as it is meant. Numbers are
// still words.
use crate::{
    Divider, Instance, PairCheck, PathCondition, Port, PortPair, SingleCheck, Skipped, Terminal,
    WindowCheck,
};
use sg_text::Place;
use sg_time::Unit;
use std::mem::size_of;

/// A word where a number stands.
#[derive(Clone, Copy, Debug)]
pub struct WrittenNumber<'a> {
    pub place: Place,
    pub text: &'a [u8],
}

/// `"(" [ number | [ number ] ":" [ number ] ":" [ number ] ] ")"`: a single number stands for all corners.
#[derive(Clone, Copy, Debug)]
pub struct WrittenValue<'a> {
    pub min: Option<WrittenNumber<'a>>,
    pub typ: Option<WrittenNumber<'a>>,
    pub max: Option<WrittenNumber<'a>>,
}

/// The limits of pulses. A single one is both.
#[derive(Clone, Copy, Debug)]
pub struct WrittenLimits<'a> {
    pub reject: WrittenValue<'a>,
    pub error: Option<WrittenValue<'a>>,
}

/// `value | "(" value value [ value ] ")"`: a delay, and limits of pulses perhaps. The place is that of its first parenthesis.
#[derive(Debug, Drop)]
pub struct WrittenDelay<'a> {
    pub place: Place,
    pub delay: WrittenValue<'a>,
    pub limits: Option<Box<WrittenLimits<'a>>>,
}

// A large file has millions of them, and hardly one has limits: those stand apart, so that a delay holds no room for them.
const _: () = prove!(size_of::<WrittenDelay<'static>>() == 152);

/// What stands in an entry of `ABSOLUTE` and `INCREMENT`.
#[derive(Debug, Drop)]
pub enum WrittenBody<'a> {
    IoPath {
        condition: PathCondition<'a>,
        from: Terminal<'a>,
        to: Port<'a>,
        retains: Vec<WrittenDelay<'a>>,
        delays: Vec<WrittenDelay<'a>>,
    },
    Port {
        port: Port<'a>,
        delays: Vec<WrittenDelay<'a>>,
    },
    Interconnect {
        from: Port<'a>,
        to: Port<'a>,
        delays: Vec<WrittenDelay<'a>>,
    },
    Device {
        output: Option<Port<'a>>,
        delays: Vec<WrittenDelay<'a>>,
    },
    NetDelay {
        port: Port<'a>,
        delays: Vec<WrittenDelay<'a>>,
    },
}

/// An entry of `ABSOLUTE` and `INCREMENT`, at its opening parenthesis.
#[derive(Debug, Drop)]
pub struct WrittenEntry<'a> {
    pub place: Place,
    pub body: WrittenBody<'a>,
}

/// What stands in `DELAY`.
#[derive(Debug, Drop)]
pub enum WrittenGroup<'a> {
    Absolute(Vec<WrittenEntry<'a>>),
    Increment(Vec<WrittenEntry<'a>>),
    PathPulse {
        place: Place,
        percent: bool,
        ports: Option<PortPair<'a>>,
        reject: WrittenValue<'a>,
        error: Option<WrittenValue<'a>>,
    },
}

/// What stands in an entry of `TIMINGCHECK`.
#[derive(Debug, Drop)]
pub enum WrittenCheckBody<'a> {
    Pair {
        check: PairCheck,
        first: Terminal<'a>,
        second: Terminal<'a>,
        limit: WrittenValue<'a>,
    },
    Window {
        check: WindowCheck,
        first: Terminal<'a>,
        second: Terminal<'a>,
        first_limit: WrittenValue<'a>,
        second_limit: WrittenValue<'a>,
    },
    Single {
        check: SingleCheck,
        terminal: Terminal<'a>,
        limit: WrittenValue<'a>,
    },
    Skipped(Skipped),
}

/// An entry of `TIMINGCHECK`, at its opening parenthesis.
#[derive(Debug, Drop)]
pub struct WrittenCheck<'a> {
    pub place: Place,
    pub body: WrittenCheckBody<'a>,
}

/// A part of a cell.
#[derive(Debug, Drop)]
pub enum WrittenPart<'a> {
    Delays(Vec<WrittenGroup<'a>>),
    Checks(Vec<WrittenCheck<'a>>),
    Skipped { place: Place, construct: Skipped },
}

/// `CELL`
#[derive(Debug, Drop)]
pub struct WrittenCell<'a> {
    pub cell_type: &'a [u8],
    pub instance: Instance<'a>,
    pub parts: Vec<WrittenPart<'a>>,
}

/// What the head of a file says.
#[derive(Clone, Copy, Debug)]
pub enum WrittenHead<'a> {
    /// A text, which has no effect.
    Text,
    Divider(Divider),
    TimeScale(Unit),
    /// `VOLTAGE` or `TEMPERATURE`, which has no effect.
    Value(Option<WrittenValue<'a>>),
}

/// What stands in parentheses in a file.
#[derive(Debug, Drop)]
pub enum WrittenFilePart<'a> {
    Head(WrittenHead<'a>),
    Cell(WrittenCell<'a>),
}

/// An SDF file: heads, and then cells.
#[derive(Debug, Drop)]
pub struct WrittenFile<'a> {
    pub parts: Vec<WrittenFilePart<'a>>,
}
