// The size of a level, and how far a bench is.
ghost use Rattle.std.specs.Prelude.{◌≡◌, ◌+◌, ◌*◌, ◌^◌, ◌≤◌};

// How many quads and points a level has, which are few; of the counts that a text states (`lines::Counts`) nothing is known.
#[derive(Clone, Copy)]
pub struct Size {
    pub(crate) quads: u32,
    pub(crate) points: u32,
    ghost quads_few: { quads ≤ 2 ^ 20 },
    ghost points_few: { points ≤ 2 * quads },
}

impl Size {
    // The words of its four tables.
    pub(crate) fn words(self) -> usize
        ensures { result ≡ 8 * self.quads + self.points }
    {
        8 * self.quads as usize + self.points as usize
    }

    // The words of it and of a level in work above it: both levels' tables, and a word for each task.
    pub(crate) fn words_to_begin(self) -> usize
        ensures { result ≡ 44 * self.quads + 3 * self.points }
    {
        44 * self.quads as usize + 3 * self.points as usize
    }

    // Where the words begin that say which tasks have run.
    pub(crate) fn ran_from(self) -> usize
        ensures { result ≡ 43 * self.quads + 2 * self.points }
    {
        43 * self.quads as usize + 2 * self.points as usize
    }

    // The size of the level refined once.
    pub(crate) fn refined(self) -> Size
        requires { self.quads ≤ 2 ^ 18 }
        ensures quads_are { result.quads ≡ 4 * self.quads }
        ensures points_are { result.points ≡ self.points + 3 * self.quads }
    {
        Size {
            quads: 4 * self.quads,
            points: self.points + 3 * self.quads,
        }
    }
}

// How far a bench is: no level, a standing one, or one in work above it, of which so many tasks have yet to run.
#[derive(Clone, Copy)]
pub enum Stage {
    Empty,
    Standing(Size),
    Working { size: Size, left: u32 },
}
