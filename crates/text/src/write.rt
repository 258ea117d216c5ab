// The standing level of a bench, written as text.
ghost use Rattle.bench.specs.Model.{state};
ghost use Rattle.text.specs.Writes.{Writes};

use crate::level::write_level;
use bench::bench::Bench;
use bench::level::Level;
use mesh::fault::Fault;
use tables::lawful::LawfulTables;

// Writes the text of the standing level to the front of the buffer, and answers how many bytes it has.
pub fn write_text(bench: &Bench<'_>, out: &mut [u8]) -> Result<usize, Fault>
    ensures { Writes (state bench.now) out.old out.new result }
{
    let tables = bench.tables(Level::Standing)?;
    write_level(&LawfulTables { tables }, out)
}
