ghost use Rattle.std.specs.Prelude.{◌≡◌, ℕ, false, length, IfOk, IfErr, MatchResult};
ghost use Rattle.mesh.specs.Refusals.{told, declined, number_of, place_of};
ghost use Rattle.chain.specs.Calls.{load, begin, quad as quad_call, point as point_call, finish, withdraw, left, refusal};
ghost use Rattle.chain.specs.Clauses.{Called, Made};
ghost use Rattle.bench.specs.Model.{state, Bears, Counts, told_slip, ComesBack};
ghost use Rattle.bench.specs.Questions.{unseen};
ghost use Rattle.bench.specs.State.{AtWork};
ghost use Rattle.bench.specs.declared.level.Level.TheVariants.{InWork};

use super::Bench;
use super::slip::{Declined, Slip};
use crate::stage::{Size, Stage};
use crate::words::Words;
use mesh::fault::Fault;
use mesh::number::{Point, Quad, Task};
use tables::lent::{MOST_QUADS, Tables};

impl<'a> Bench<'a> {
    // An empty bench over these words, whose slips bear this mark number.
    pub fn new(words: &'a mut [u32], mark: u32) -> Bench<'a>
        ensures { Made (length words.old) mark (state result) }
    {
        Bench {
            words: Words { cells: words },
            mark,
            stage: Stage::Empty,
        }
    }

    // The size of the standing level and how many tasks have yet to run, while a level is in work.
    pub(super) fn in_work(&self) -> Result<(Size, u32), Fault>
        ensures { MatchResult result (λ p. AtWork (state self.now) self.now.mark p.0 p.1 self.now.words.cells.now) (λ f. unseen (state self.now) InWork ≡ declined (number_of f) (place_of f)) }
    {
        match self.stage {
            Stage::Empty => Err(Fault::NoStandingLevel),
            Stage::Standing(_) => Err(Fault::NoLevelInWork),
            Stage::Working { size, left } => Ok((size, left)),
        }
    }

    // The size of the standing level, if this is the slip of the level in work; the slip comes back in any case.
    pub(super) fn closes(&self, slip: Slip) -> Result<(Size, Slip), Declined>
        ensures call { MatchResult result (λ p. (slip.mark ≡ self.now.mark) × ((n : ℕ) × AtWork (state self.now) self.now.mark p.0 n self.now.words.cells.now)) (λ d. refusal (state self.now) (withdraw slip.mark) ≡ declined (number_of d.fault) (place_of d.fault)) }
        ensures slip { MatchResult result (λ p. p.1 ≡ slip) (λ d. d.slip ≡ slip) }
    {
        match self.in_work() {
            Ok((size, _)) if slip.mark() == self.mark => Ok((size, slip)),
            Ok(_) => Err(Declined {
                fault: Fault::OtherSlip,
                slip,
            }),
            // by hand: `map_err` would take the slip, which comes back in both cases
            Err(fault) => Err(Declined { fault, slip }),
        }
    }

    // Makes the mesh of these tables the standing level.
    pub fn load(&mut self, tables: &Tables<'_>) -> Result<(), Fault>
        ensures { Called (state self.old) (load tables.now.corners.now tables.now.friends.now tables.now.marks.now tables.now.starts.now) (state self.new) (told result) }
    {
        tables.judge()?;
        if let Stage::Working { .. } = self.stage {
            return Err(Fault::LevelInWork);
        }
        let size = Size {
            quads: tables.quads() as u32,
            points: tables.starts.len() as u32,
        };
        if self.words.cells.len() < size.words() {
            return Err(Fault::TooFewWords);
        }
        self.words.lay_tables(tables, size);
        self.stage = Stage::Standing(size);
        Ok(())
    }

    // Opens a level in work, whose words are all 0, and hands out the slip that closes it.
    pub fn begin(&mut self) -> Result<Slip, Fault>
        ensures call { Called (state self.old) begin (state self.new) (told result) }
        ensures slip { Bears result self.old.mark }
        ensures unspent { IfOk result (λ s. s.spent ≡ false) }
    {
        match self.stage {
            Stage::Working { .. } => Err(Fault::LevelInWork),
            Stage::Empty => Err(Fault::NoStandingLevel),
            Stage::Standing(size) => {
                if 4 * size.quads as usize > MOST_QUADS {
                    return Err(Fault::LevelTooLarge);
                }
                if self.words.cells.len() < size.words_to_begin() {
                    return Err(Fault::TooFewWords);
                }
                self.words.blank(size);
                self.stage = Stage::Working {
                    size,
                    left: size.quads + size.points,
                };
                Ok(Slip::new(self.mark))
            }
        }
    }

    // Runs the task of a quad, again if asked, and answers how many tasks have yet to run.
    // `point` differs in the bound, the place among the tasks and what is written, which is all that the two have.
    pub fn quad(&mut self, quad: Quad) -> Result<u32, Fault>
        ensures call { Called (state self.old) (quad_call quad.0) (state self.new) (told result) }
        ensures count { Counts result (left (state self.new)) }
    {
        let (size, left) = self.in_work()?;
        if quad.0 >= size.quads {
            return Err(Fault::NoSuchNumber(quad.0));
        }
        let left = self.words.left_after(size, quad.0 as usize, left);
        self.words.run_quad(size, quad);
        self.stage = Stage::Working { size, left };
        Ok(left)
    }

    // Runs the task of a point, again if asked, and answers how many tasks have yet to run.
    pub fn point(&mut self, point: Point) -> Result<u32, Fault>
        ensures call { Called (state self.old) (point_call point.0) (state self.new) (told result) }
        ensures count { Counts result (left (state self.new)) }
    {
        let (size, left) = self.in_work()?;
        if point.0 >= size.points {
            return Err(Fault::NoSuchNumber(point.0));
        }
        let task = size.quads as usize + point.0 as usize;
        let left = self.words.left_after(size, task, left);
        self.words.run_point(size, point);
        self.stage = Stage::Working { size, left };
        Ok(left)
    }

    // Makes the level in work the standing one, once every task has run.
    pub fn finish(&mut self, slip: Slip) -> Result<(), Declined>
        ensures call { Called (state self.old) (finish slip.mark) (state self.new) (told_slip result) }
        ensures slip { ComesBack result slip.mark }
        ensures unspent { IfErr result (λ d. d.slip.spent ≡ slip.spent) }
    {
        let (size, slip) = self.closes(slip)?;
        if let Some(task) = self.words.lowest(size) {
            return Err(Declined {
                fault: Fault::TaskNotRun(Task(task as u32)),
                slip,
            });
        }
        slip.spend();
        self.words.bring_down(size);
        self.stage = Stage::Standing(size.refined());
        Ok(())
    }
}
