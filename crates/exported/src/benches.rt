// A bench loaded from four tables, and then refined or written.
ghost use Rattle.std.specs.Prelude.{◌≡◌, ℕ, length};
ghost use Rattle.bench.specs.Model.{Counts, state};
ghost use Rattle.chain.specs.Calls.{made};
ghost use Rattle.lines.specs.Text.{mesh_text};
ghost use Rattle.mesh.specs.Refusals.{told};
ghost use Rattle.tables.specs.Lent.{mesh};
ghost use Rattle.exported.specs.Benches.{LoadedAndRefined, RefinedTimes, Wrote, copied, found_at, refine_standing, refine_verdict, write_verdict, written_of};

use crate::{Found, Refusal, Written};
use bench::bench::Bench;
use bench::level::Level;
use mesh::fault::Fault;
use questions::Questions;
use refining::once::refine_once;
use tables::lent::Tables;
use text::write::write_text;

// Writes the standing level, if there is one and room for it, to the front of a table: corners, friends, marks, starts.
#[tactic(auto, unfolding(mesh::specs::Causes::mesh_of))]
pub fn copy_standing(bench: &Bench<'_>, out: &mut [u32])
    ensures { out.new ≡ copied (state bench.now).standing out.old }
{
    if let Ok(level) = bench.tables(Level::Standing) {
        let quads = level.quads();
        let points = level.starts.len();
        if 8 * quads + points <= out.len() {
            out[..4 * quads].copy_from_slice(level.corners);
            out[4 * quads..6 * quads].copy_from_slice(level.friends);
            out[6 * quads..8 * quads].copy_from_slice(level.marks);
            out[8 * quads..8 * quads + points].copy_from_slice(level.starts);
        }
    }
}

// Refines the standing level so many times, or until a refinement is refused.
fn refine_levels(bench: &mut Bench<'_>, levels: u32) -> Result<(), Fault>
    ensures { RefinedTimes levels (state bench.old) (state bench.new) (told result) }
{
    for _done in 0..levels {
        refine_once(bench)?;
    }
    Ok(())
}

// Loads a bench, and refines what stands then so many times or until a refinement is refused.
pub fn load_and_refine(bench: &mut Bench<'_>, tables: &Tables<'_>, levels: u32) -> Result<(), Fault>
    ensures call { LoadedAndRefined levels (mesh tables.now) (state bench.old) (state bench.new) (told result) }
    ensures made { (words mark : ℕ) → state bench.old ≡ made words mark → ((state bench.new).standing ≡ refine_standing words mark (mesh tables.now) levels) × (told result ≡ refine_verdict words mark (mesh tables.now) levels) }
{
    // what stood before goes, unless the load is refused
    bench.load(tables)?;
    refine_levels(bench, levels)
}

// Loads a bench and writes what stands to the front of `out`.
pub fn load_and_write(
    bench: &mut Bench<'_>,
    tables: &Tables<'_>,
    out: &mut [u8],
) -> Result<usize, Fault>
    ensures { Wrote (write_verdict (state bench.old) (mesh tables.now) (length out.old)) (mesh_text (mesh tables.now)) out.old out.new result }
{
    bench.load(tables)?;
    write_text(bench, out)
}

impl Found {
    // What a call on a bench answered, with the counts of what stands, 0 where nothing does.
    pub fn standing(answer: Result<(), Fault>, bench: &Bench<'_>) -> Found
        ensures { result ≡ found_at (told answer) (state bench.now).standing }
    {
        let Refusal { number, place } = Refusal::from(answer);
        let (quads, points) = bench.counts(Level::Standing).unwrap_or((0, 0));
        Found {
            number,
            place,
            quads,
            points,
        }
    }
}

impl From<Result<usize, Fault>> for Written {
    ghost from_gives = { λ answer written. (n : ℕ) → Counts answer n → written ≡ written_of (told answer) n };

    fn from(answer: Result<usize, Fault>) -> Written {
        let Refusal { number, place } = Refusal::from(answer.map(|_| ()));
        Written {
            number,
            place,
            count: answer.unwrap_or(0),
        }
    }
}
