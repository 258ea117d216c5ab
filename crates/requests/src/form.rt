// Rows of some form, each of which makes a request, and the form in which answers are kept.
ghost use Rattle.std.specs.Prelude.{◌≡◌};
ghost use Rattle.requests.specs.Sessions.{Asked, asked};
ghost use Rattle.requests.specs.declared.request.Answer.{Answer};

use crate::request::{Answer, Request};

pub trait Form<'s> {
    type Row;

    type Kept: Copy;

    // What a row asks, and what is kept of an answer.
    ghost asks: { Self → Self.Row → Asked };

    ghost keeps: { Answer → Self.Kept };

    fn request(&self, row: &Self::Row) -> Request<'s>
        ensures { asked result ≡ asks self.now row.now };

    fn kept(&self, answer: Answer) -> Self::Kept
        ensures { result ≡ keeps answer };
}

// Requests and answers as they are.
pub(crate) struct Plain;

impl<'s> Form<'s> for Plain {
    type Row = Request<'s>;

    type Kept = Answer;

    ghost asks = { λ form row. asked row };

    ghost keeps = { λ answer. answer };

    fn request(&self, row: &Request<'s>) -> Request<'s>
        ensures { asked result ≡ asked row.now }
    {
        *row
    }

    fn kept(&self, answer: Answer) -> Answer
        ensures { result ≡ answer }
    {
        answer
    }
}
