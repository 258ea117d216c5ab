// Why a call is refused. Each cause has a number, and a place where it names one.
ghost use Rattle.std.specs.Prelude.{◌≡◌};
ghost use Rattle.mesh.specs.Refusals.{number_of, place_of};

use crate::number::{Corner, OffEdge, Point, Task};
use std::error::Error;
use std::fmt;

#[derive(Clone, Copy, PartialEq, Eq, Hash, Debug)]
pub enum Fault {
    // 1: the corner table is no multiple of 4, or the friend or mark table not half of it
    Shape,
    // 2: fewer than 2 quads, or more than 1,048,576
    QuadCount,
    // 3: fewer points than quads, or more than twice as many
    PointCount,
    // 4: the corner names no point
    NoSuchPoint(Corner),
    // 5: the friend of the off-edge is no edge
    NoSuchEdge(OffEdge),
    // 6: the mark word of the off-edge stands for no mark
    NoMark(OffEdge),
    // 7: the friend of the off-edge does not run the other way
    NotOpposed(OffEdge),
    // 8: the start of the point is no corner of it
    NotAtPoint(Point),
    // 9: the walk at the point is not back in 2 to 64 steps
    NotBack(Point),
    // 10: the walks together miss a corner
    CornersUnmet,
    // 11: a load or a begin while a level is in work
    LevelInWork,
    // 12: there is no standing level
    NoStandingLevel,
    // 13: the next level would have more than 1,048,576 quads
    LevelTooLarge,
    // 14: the bench has too few working words
    TooFewWords,
    // 15: there is no level in work
    NoLevelInWork,
    // 16: the number that was asked for is not below its count
    NoSuchNumber(u32),
    // 17: the slip bears another mark number
    OtherSlip,
    // 18: a finish with tasks not run, and the lowest of them
    TaskNotRun(Task),
    // 19: a table of values has the wrong length
    WrongLength,
    // 20: a component past its limit or not finite, or a row that makes no value
    NoValue(u32),
    // 21: a line that is malformed, missing or surplus
    BadLine(u32),
    // 22: a buffer is too short
    TooShort,
}

impl Fault {
    // The number of the cause.
    pub fn number(&self) -> u8
        ensures { result ≡ number_of self.now }
    {
        match self {
            Fault::Shape => 1,
            Fault::QuadCount => 2,
            Fault::PointCount => 3,
            Fault::NoSuchPoint(_) => 4,
            Fault::NoSuchEdge(_) => 5,
            Fault::NoMark(_) => 6,
            Fault::NotOpposed(_) => 7,
            Fault::NotAtPoint(_) => 8,
            Fault::NotBack(_) => 9,
            Fault::CornersUnmet => 10,
            Fault::LevelInWork => 11,
            Fault::NoStandingLevel => 12,
            Fault::LevelTooLarge => 13,
            Fault::TooFewWords => 14,
            Fault::NoLevelInWork => 15,
            Fault::NoSuchNumber(_) => 16,
            Fault::OtherSlip => 17,
            Fault::TaskNotRun(_) => 18,
            Fault::WrongLength => 19,
            Fault::NoValue(_) => 20,
            Fault::BadLine(_) => 21,
            Fault::TooShort => 22,
        }
    }

    // The place of the cause; 0 where it has none, since a frame and the C interface always have a number there.
    pub fn place(&self) -> u32
        ensures { result ≡ place_of self.now }
    {
        match self {
            Fault::NoSuchPoint(corner) => corner.0,
            Fault::NoSuchEdge(off) => off.0,
            Fault::NoMark(off) => off.0,
            Fault::NotOpposed(off) => off.0,
            Fault::NotAtPoint(point) => point.0,
            Fault::NotBack(point) => point.0,
            Fault::NoSuchNumber(number) => *number,
            Fault::TaskNotRun(task) => task.0,
            Fault::NoValue(place) => *place,
            Fault::BadLine(line) => *line,
            _ => 0,
        }
    }
}

impl Fault {
    // The cause in plain words.
    fn meaning(&self) -> &'static str {
        match self {
            Fault::Shape =>
                "the corner table is no multiple of 4, or the friend or mark table is not half of it",
            Fault::QuadCount => "there are fewer than 2 quads, or more than 1048576",
            Fault::PointCount => "there are fewer points than quads, or more than twice as many",
            Fault::NoSuchPoint(_) => "this corner names no point",
            Fault::NoSuchEdge(_) => "the friend of this off-edge is no edge",
            Fault::NoMark(_) => "the mark word of this off-edge stands for no mark",
            Fault::NotOpposed(_) => "the friend of this off-edge does not run the other way",
            Fault::NotAtPoint(_) => "the start of this point is no corner of it",
            Fault::NotBack(_) => "the walk at this point is not back in 2 to 64 steps",
            Fault::CornersUnmet => "the walks together miss a corner",
            Fault::LevelInWork => "a level is in work",
            Fault::NoStandingLevel => "there is no standing level",
            Fault::LevelTooLarge => "the next level would have more than 1048576 quads",
            Fault::TooFewWords => "the bench has too few working words",
            Fault::NoLevelInWork => "there is no level in work",
            Fault::NoSuchNumber(_) => "this number is not below its count",
            Fault::OtherSlip => "the slip bears another mark number",
            Fault::TaskNotRun(_) => "this task has not run",
            Fault::WrongLength => "a table of values has the wrong length",
            Fault::NoValue(_) => "this component or row makes no value",
            Fault::BadLine(_) => "this line, counted from 0, is malformed, missing or surplus",
            Fault::TooShort => "a buffer is too short",
        }
    }
}

// Not by the derive of `thiserror`: what is printed begins with number and place, which are methods, and the text for each cause stands in `meaning`.
impl fmt::Display for Fault {
    fn fmt<W: fmt::Write>(&self, f: &mut fmt::Formatter<W>) -> fmt::Result {
        let number = self.number();
        let place = self.place();
        let meaning = self.meaning();
        write!(f, "number {number}, place {place}: {meaning}")
    }
}

impl Error for Fault {}
