ghost use Rattle.std.specs.Prelude.{◌≡◌, ℕ, map};
ghost use Rattle.std.specs.List.{range_with_len};
ghost use Rattle.mesh.specs.Refusals.{told};
ghost use Rattle.chain.specs.Calls.{Call, next};
ghost use Rattle.chain.specs.Clauses.{run_on};
ghost use Rattle.bench.specs.Model.{state};
ghost use Rattle.refining.specs.Once.{RefinedOnce};

use bench::bench::Bench;
use bench::level::Level;
use mesh::fault::Fault;
use mesh::number::{Point, Quad};
use questions::Questions;

// A call on the bench for each of so many numbers.
#[tactic(auto, using(crate::proofs::Refines::run_on_more))]
fn run_each<F: Fn(&mut Bench<'_>, u32) -> Result<u32, Fault>>(
    bench: &mut Bench<'_>,
    count: u32,
    run: F,
)
    ghost call: { ℕ → Call }
    requires callable { F.IsAlwaysCallable run }
    requires calls { (b : _) (n : ℕ) (r : _) (left : _) → F.post run b n r left → state left.now ≡ next (state b.now) (call n) }
    ensures { state bench.new ≡ run_on (state bench.old) (map call (range_with_len 0 count)) }
{
    for number in 0..count {
        // its answer is not needed: the clauses say what stands after each call
        let _ = run(bench, number);
    }
}

// Refines the standing level once: begin, every task by number, finish.
pub fn refine_once(bench: &mut Bench<'_>) -> Result<(), Fault>
    ensures { RefinedOnce (state bench.old) (state bench.new) (told result) }
{
    let slip = bench.begin()?;
    // a level stands, since begin was carried out
    let (quads, points) = bench.counts(Level::Standing).unwrap();
    run_each(bench, quads, |bench, q| bench.quad(Quad(q)));
    run_each(bench, points, |bench, v| bench.point(Point(v)));
    // it is the slip of this bench, and every task has run
    bench.finish(slip).unwrap();
    Ok(())
}
