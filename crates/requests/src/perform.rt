// A bench and the slip held beside it go in and out as two: a struct of them would hold a slip, so it too could end only by a call, and is no plainer.
// Rows and answers are two as well: the ones are read, the others written, and each call has just one of each.
ghost use Rattle.std.specs.Prelude.{◌≡◌, ℕ, map, length, take, None as nothing};
ghost use Rattle.chain.specs.Clauses.{After, GoesOnThrough, Made, run_on};
ghost use Rattle.bench.specs.Model.{state, told_slip};
ghost use Rattle.requests.specs.Sessions.{Gave, all_calls, asked, beside, calls_made, done, first_asked, given_back, held_mark, play, plays, replies, reply, reply_of, told_reply};

use crate::form::{Form, Plain};
use crate::request::{Answer, Request};
use bench::bench::Bench;
use bench::bench::slip::{Declined, Slip};

// What a finish or a withdraw gave: its slip comes back if it was refused.
fn parted(called: Result<(), Declined>) -> (Option<Slip>, Answer)
    ensures held { held_mark result.0 ≡ given_back called }
    ensures reply { told_reply result.1 ≡ reply (told_slip called) done }
{
    match called {
        Ok(()) => (None, Answer::Done),
        Err(Declined { fault, slip }) => (Some(slip), Answer::Refused(fault)),
    }
}

// One request, with the slip that is held, if any; and the slip that is held then.
pub fn ask(
    bench: &mut Bench<'_>,
    held: Option<Slip>,
    request: Request<'_>,
) -> (Option<Slip>, Answer)
    ensures after { beside bench.exit.now result.0 ≡ play (beside bench.entry.now held) (asked request.entry) }
    ensures reply { told_reply result.1 ≡ reply_of (state bench.old) (held_mark held) (asked request.entry) }
{
    match request {
        Request::Load(tables) => (held, bench.load(&tables).into()),
        Request::Begin => match held {
            Some(slip) => (Some(slip), Answer::Nothing),
            // the slip that is handed out is held, so the arms differ in more than the answer
            None => match bench.begin() {
                Ok(slip) => (Some(slip), Answer::Done),
                Err(fault) => (None, Answer::Refused(fault)),
            },
        },
        Request::RunQuad(quad) => (held, bench.quad(quad).into()),
        Request::RunPoint(point) => (held, bench.point(point).into()),
        // by match, here and below: the borrow checker doesn't cover held.map_or(..), which may drop what it holds, and a slip's drop asks that it is spent
        Request::Finish => match held {
            None => (None, Answer::Nothing),
            Some(slip) => parted(bench.finish(slip)),
        },
        Request::Withdraw => match held {
            None => (None, Answer::Nothing),
            Some(slip) => parted(bench.withdraw(slip)),
        },
    }
}

// The rows of a form, each asked in its turn, and what is kept of what each gave: as many as there are answers for.
fn perform_in<'s, F: Form<'s>>(
    bench: &mut Bench<'_>,
    held: Option<Slip>,
    form: &F,
    rows: &[F::Row],
    answers: &mut [F::Kept],
) -> Option<Slip>
    ensures after { beside bench.exit.now result ≡ plays (beside bench.entry.now held) (first_asked (F.asks form.now) (length answers.old) rows.now) }
    ensures gave { Gave F.keeps (replies (beside bench.entry.now held) (first_asked (F.asks form.now) (length answers.old) rows.now)) answers.old answers.new }
{
    let mut held = held;
    let asked = &rows[..rows.len().min(answers.len())];
    // by index: over a zip with `answers.iter_mut()` the proof did not close, since no invariant can name the answers
    for (i, row) in asked.iter().enumerate() {
        let (slip, answer) = ask(bench, held, form.request(row));
        held = slip;
        answers[i] = form.kept(answer);
    }
    held
}

// The same from no slip held. One that is still held at the end closes the level in work, so it is withdrawn.
pub fn work_in<'s, F: Form<'s>>(
    bench: &mut Bench<'_>,
    form: &F,
    rows: &[F::Row],
    answers: &mut [F::Kept],
)
    ensures after { state bench.new ≡ run_on (state bench.old) (all_calls (state bench.old) (first_asked (F.asks form.now) (length answers.old) rows.now)) }
    ensures gave { Gave F.keeps (replies (beside bench.entry.now nothing) (first_asked (F.asks form.now) (length answers.old) rows.now)) answers.old answers.new }
{
    if let Some(slip) = perform_in(bench, None, form, rows, answers) {
        bench.withdraw(slip).unwrap();
    }
}

// The requests, one after the other, each carried out or refused, and what each gave: as many as there are answers for.
pub fn perform(
    bench: &mut Bench<'_>,
    held: Option<Slip>,
    requests: &[Request<'_>],
    answers: &mut [Answer],
) -> Option<Slip>
    ensures after { beside bench.exit.now result ≡ plays (beside bench.entry.now held) (first_asked asked (length answers.old) requests.now) }
    ensures promise { GoesOnThrough (state bench.entry.now) (calls_made (beside bench.entry.now held) (first_asked asked (length answers.old) requests.now)) (state bench.exit.now) }
    ensures made { (words mark : ℕ) → Made words mark (state bench.entry.now) → After words mark (calls_made (beside bench.entry.now held) (first_asked asked (length answers.old) requests.now)) (state bench.exit.now) }
    ensures gave { map told_reply (take (length requests.now) answers.new) ≡ replies (beside bench.entry.now held) (first_asked asked (length answers.old) requests.now) }
{
    perform_in(bench, held, &Plain, requests, answers)
}

// The requests, from no slip held. One that is still held at the end closes the level in work, so it is withdrawn.
pub fn work(bench: &mut Bench<'_>, requests: &[Request<'_>], answers: &mut [Answer])
    ensures promise { GoesOnThrough (state bench.old) (all_calls (state bench.old) (first_asked asked (length answers.old) requests.now)) (state bench.new) }
    ensures after { state bench.new ≡ run_on (state bench.old) (all_calls (state bench.old) (first_asked asked (length answers.old) requests.now)) }
    ensures made { (words mark : ℕ) → Made words mark (state bench.old) → After words mark (all_calls (state bench.old) (first_asked asked (length answers.old) requests.now)) (state bench.new) }
    ensures gave { map told_reply (take (length requests.now) answers.new) ≡ replies (beside bench.entry.now nothing) (first_asked asked (length answers.old) requests.now) }
{
    work_in(bench, &Plain, requests, answers);
}
