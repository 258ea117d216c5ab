// The mark of an edge, and the word that a table keeps of it.
ghost use Rattle.std.specs.Prelude.{◌≤◌};

use std::error::Error;
use std::fmt;

pub mod words;

// The word of an infinite mark.
pub const INFINITE: u32 = 65535;

// How sharp a semi-sharp edge is, in 256ths: 1 to 4,096. No other number can exist.
#[derive(Clone, Copy, PartialEq, Eq, PartialOrd, Ord, Hash, Debug)]
pub struct Sharpness {
    value: u16,
    ghost some: { 1 ≤ value },
    ghost most: { value ≤ 4096 },
}

#[derive(Clone, Copy, PartialEq, Eq, Hash, Debug)]
pub enum Mark {
    Smooth,
    SemiSharp(Sharpness),
    Infinite,
}

// A number of 256ths that no semi-sharp edge has.
#[derive(Clone, Copy, PartialEq, Eq, Hash, Debug)]
pub struct NotSemiSharp(pub u16);

// A word that stands for no mark.
#[derive(Clone, Copy, PartialEq, Eq, Hash, Debug)]
pub struct UnknownMark(pub u32);

// By hand, here and below: one line each, no kit crate for them.
impl fmt::Display for NotSemiSharp {
    fn fmt<W: fmt::Write>(&self, f: &mut fmt::Formatter<W>) -> fmt::Result {
        write!(f, "no semi-sharp edge has {} 256ths", self.0)
    }
}

impl fmt::Display for UnknownMark {
    fn fmt<W: fmt::Write>(&self, f: &mut fmt::Formatter<W>) -> fmt::Result {
        write!(f, "the word {} stands for no mark", self.0)
    }
}

impl Error for NotSemiSharp {}

impl Error for UnknownMark {}
