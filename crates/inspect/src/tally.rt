// How many off-edges have each kind of mark.
ghost use Rattle.std.specs.Prelude.{◌<◌};
ghost use Rattle.inspect.specs.Marks.{Adds, Tallies};

use mesh::mark::Mark;

#[derive(Clone, Copy, Default)]
pub struct Tally {
    pub smooth: usize,
    pub semi_sharp: usize,
    pub infinite: usize,
    pub no_mark: usize,
}

impl Tally {
    // One word more.
    fn add(&mut self, word: u32)
        requires smooth { self.old.smooth < 18446744073709551615 }
        requires semi_sharp { self.old.semi_sharp < 18446744073709551615 }
        requires infinite { self.old.infinite < 18446744073709551615 }
        requires no_mark { self.old.no_mark < 18446744073709551615 }
        ensures { Adds word self.old self.new }
    {
        match Mark::try_from(word) {
            Ok(Mark::Smooth) => self.smooth += 1,
            Ok(Mark::SemiSharp(_)) => self.semi_sharp += 1,
            Ok(Mark::Infinite) => self.infinite += 1,
            Err(_) => self.no_mark += 1,
        }
    }
}

// Counts the mark words by what they stand for.
pub fn count(words: &[u32]) -> Tally
    ensures { Tallies words.now result }
{
    let mut tally = Tally::default();
    for word in words {
        tally.add(*word);
    }
    tally
}
