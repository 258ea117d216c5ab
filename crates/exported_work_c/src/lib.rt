// A bench asked row by row, for a program in Rust or C. It has an archive of its own: with two callers of a refinement in one, the compiler made each slower.
#![tactic(auto)]

ghost use Rattle.chain.specs.Calls.{made};
ghost use Rattle.chain.specs.Clauses.{run_on};
ghost use Rattle.exported.specs.Benches.{copied};
ghost use Rattle.exported_work.specs.Works.{numbers_of, requests_of};
ghost use Rattle.requests.specs.Sessions.{all_calls, over, replies};
ghost use Rattle.std.specs.Prelude.{◌≡◌, None as nothing, length, map};

use bench::bench::Bench;
use exported::benches::copy_standing;
use exported_work::Numbers;
use requests::perform::work_in;

// Makes a bench over these words and asks it row by row, as many rows as there is room for answers; a slip that is still held then is withdrawn.
// What stands at the end is copied to `out`.
#[unsafe(no_mangle)]
pub extern "C" fn mesh_work(
    words: &mut [u32],
    mark: u32,
    store: &[u32],
    rows: &[[u32; 6]],
    answers: &mut [[u32; 3]],
    out: &mut [u32],
)
    ensures gave { answers.new ≡ over (map numbers_of (replies (record { bench = made (length words.old) mark; held = nothing }) (requests_of store.now (length answers.old) rows.now))) answers.old }
    ensures level { out.new ≡ copied (run_on (made (length words.old) mark) (all_calls (made (length words.old) mark) (requests_of store.now (length answers.old) rows.now))).standing out.old }
{
    let mut bench = Bench::new(words, mark);
    work_in(&mut bench, &Numbers { store }, rows, answers);
    copy_standing(&bench, out);
}
