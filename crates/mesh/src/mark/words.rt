// The functions on marks stand apart from the types: a file of specs/ that names a type with a ghost field
// cannot be imported where the type is declared.
ghost use Rattle.std.specs.Prelude.{◌≡◌};
ghost use Rattle.mesh.specs.Marks.{word_of, Measures, Decodes, MarksAreWords};

use super::{INFINITE, Mark, NotSemiSharp, Sharpness, UnknownMark};

// The sharpest semi-sharp edge, in 256ths.
const SHARPEST: u32 = 4096;

// The sharpness of so many 256ths.
impl TryFrom<u16> for Sharpness {
    type Error = NotSemiSharp;

    ghost try_from_gives = { Measures };

    fn try_from(value: u16) -> Result<Sharpness, NotSemiSharp> {
        match u32::from(value) {
            1..=SHARPEST => Ok(Sharpness { value }),
            _ => Err(NotSemiSharp(value)),
        }
    }
}

impl Sharpness {
    pub fn value(&self) -> u16
        ensures { result ≡ self.now.value }
    {
        self.value
    }
}

// The mark that a word stands for.
impl TryFrom<u32> for Mark {
    type Error = UnknownMark;

    ghost try_from_gives = { Decodes };

    fn try_from(word: u32) -> Result<Mark, UnknownMark> {
        match word {
            0 => Ok(Mark::Smooth),
            1..=SHARPEST => Ok(Mark::SemiSharp(Sharpness { value: word as u16 })),
            INFINITE => Ok(Mark::Infinite),
            _ => Err(UnknownMark(word)),
        }
    }
}

// The word that a table keeps of a mark.
impl From<Mark> for u32 {
    ghost from_gives = { λ mark word. word ≡ word_of mark };

    fn from(mark: Mark) -> u32 {
        match mark {
            Mark::Smooth => 0,
            Mark::SemiSharp(sharpness) => u32::from(sharpness.value),
            Mark::Infinite => INFINITE,
        }
    }
}

// Marks and their words are each other's image: every mark has a lawful word, and no other mark has the same.
pub fn marks_are_words()
    ensures { MarksAreWords }
{}
