// Loading a bench from text: the text is read into lent tables, and these are loaded.
ghost use Rattle.std.specs.Prelude.{◌≡◌, ◌*◌, take};
ghost use Rattle.mesh.specs.Refusals.{told};
ghost use Rattle.lines.specs.Laws.{HasRoom};
ghost use Rattle.lines.specs.Lent.{Same, lent_room, HoldsIn};
ghost use Rattle.lines.specs.Reading.{reading};
ghost use Rattle.chain.specs.Calls.{load, load_text};
ghost use Rattle.chain.specs.Clauses.{Called};
ghost use Rattle.bench.specs.Model.{state};
ghost use Rattle.text.specs.declared.load.TextFault.TheVariants.{Unloaded};
ghost use Rattle.text.specs.Loads.{fault_in, told_text, Loaded, Whose};

use bench::bench::Bench;
use lines::{Counts, TablesMut, read};
use mesh::fault::Fault;
use tables::lent::Tables;

// Why a text was not loaded: it was not read, or the load of what was read was refused.
#[derive(Clone, Copy, PartialEq, Eq, Debug)]
pub enum TextFault {
    Unread(Fault),
    Unloaded(Fault),
}

// The refusal itself, which comes through whole.
impl From<TextFault> for Fault {
    ghost from_gives = { λ t f. f ≡ fault_in t };

    fn from(value: TextFault) -> Self {
        match value {
            TextFault::Unread(fault) => fault,
            TextFault::Unloaded(fault) => fault,
        }
    }
}

// What a load refuses; what reading refuses is wrapped by its name.
impl From<Fault> for TextFault {
    ghost from_gives = { λ f t. t ≡ Unloaded f };

    fn from(value: Fault) -> Self {
        TextFault::Unloaded(value)
    }
}

// Loads the mesh whose words lie in the front of these tables.
fn load_front(bench: &mut Bench<'_>, counts: Counts, lent: &TablesMut<'_>) -> Result<(), Fault>
    requires { HasRoom counts.quads counts.points (lent_room lent.now) }
    ensures { Called (state bench.old) (load (take (4 * counts.quads) lent.now.corners.now) (take (2 * counts.quads) lent.now.friends.now) (take (2 * counts.quads) lent.now.marks.now) (take counts.points lent.now.starts.now)) (state bench.new) (told result) }
{
    let quads = counts.quads as usize;
    let points = counts.points as usize;
    let tables = Tables {
        corners: &lent.corners[..4 * quads],
        friends: &lent.friends[..2 * quads],
        marks: &lent.marks[..2 * quads],
        starts: &lent.starts[..points],
    };
    bench.load(&tables)
}

// Reads a text into the lent tables and loads what was read. The tables hold the words of the text also where the load is refused.
pub fn load_text(
    bench: &mut Bench<'_>,
    text: &[u8],
    lent: &mut TablesMut<'_>,
) -> Result<(), TextFault>
    ensures same { Same lent.old lent.new }
    ensures call { Called (state bench.old) (load_text text.now (lent_room lent.old)) (state bench.new) (told_text result) }
    ensures tables { HoldsIn (reading text.now (lent_room lent.old)) lent.old lent.new }
    ensures loaded { Loaded text.now (state bench.new) result }
    ensures whose { Whose (reading text.now (lent_room lent.old)) result }
{
    let counts = read(text, lent).map_err(TextFault::Unread)?;
    load_front(bench, counts, lent)?;
    Ok(())
}
