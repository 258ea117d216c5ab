ghost use Rattle.bench.specs.Model.{state};
ghost use Rattle.bench.specs.Questions.{Lends};

use super::Bench;
use crate::level::Level;
use crate::stage::Stage;
use mesh::fault::Fault;
use tables::lent::Tables;

impl<'a> Bench<'a> {
    // The tables of a level, lent.
    pub fn tables(&self, level: Level) -> Result<Tables<'_>, Fault>
        ensures { Lends (state self.now) level result }
    {
        match level {
            Level::Standing => match self.stage {
                Stage::Empty => Err(Fault::NoStandingLevel),
                Stage::Standing(size) | Stage::Working { size, .. } => {
                    Ok(self.words.tables(0, size))
                }
            },
            Level::InWork => {
                let (size, _) = self.in_work()?;
                Ok(self.words.tables(size.words(), size.refined()))
            }
        }
    }
}
