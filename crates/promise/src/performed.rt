// A list of requests performed on a bench, with the whole promise.
ghost use Rattle.std.specs.Prelude.{◌≡◌, ℕ, [], map, length, take, None as nothing};
ghost use Rattle.bench.specs.Model.{state};
ghost use Rattle.chain.specs.Clauses.{Made, on_top, run_on};
ghost use Rattle.chain.specs.History.{carried_out};
ghost use Rattle.requests.specs.Sessions.{all_calls, asked, beside, first_asked, replies, told_reply};
ghost use Rattle.promise.specs.Whole.{KeepsAllThrough, Kept};

use bench::bench::Bench;
use kinds::corner::CornerKind;
use kinds::value::ValueKind;
use requests::perform::work;
use requests::request::{Answer, Request};

// The requests, one after the other, each carried out or refused, and what each gave. One that holds a slip at the end is withdrawn.
// After them the mesh is kept, and so are values of this kind and seams of that one, whatever the bench went through before;
// and so from the making of the bench on.
pub fn work_and_keep<K: ValueKind, C: CornerKind>(
    bench: &mut Bench<'_>,
    requests: &[Request<'_>],
    answers: &mut [Answer],
)
    ensures keeps { KeepsAllThrough K.ValueKind.lies K.ValueKind.blended C.CornerKind.middle (state bench.old) (all_calls (state bench.old) (first_asked asked (length answers.old) requests.now)) (state bench.new) }
    ensures made { (words mark : ℕ) → Made words mark (state bench.old) → Kept K.ValueKind.lies K.ValueKind.blended C.CornerKind.middle words mark (carried_out words mark (on_top (all_calls (state bench.old) (first_asked asked (length answers.old) requests.now)) [])) (state bench.new) }
    ensures after { state bench.new ≡ run_on (state bench.old) (all_calls (state bench.old) (first_asked asked (length answers.old) requests.now)) }
    ensures gave { map told_reply (take (length requests.now) answers.new) ≡ replies (beside bench.entry.now nothing) (first_asked asked (length answers.old) requests.now) }
{
    work(bench, requests, answers);
}
