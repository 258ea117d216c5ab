ghost use Rattle.std.specs.Prelude.{◌≡◌};
ghost use Rattle.mesh.specs.Refusals.{told};
ghost use Rattle.requests.specs.Sessions.{count_reply, done, reply, told_reply};

use mesh::fault::Fault;
use mesh::number::{Point, Quad};
use tables::lent::Tables;

// What may be asked of a bench and the slip that is held beside it.
#[derive(Clone, Copy, PartialEq, Eq, Debug)]
pub enum Request<'s> {
    Begin,
    Load(Tables<'s>),
    RunQuad(Quad),
    RunPoint(Point),
    Finish,
    Withdraw,
}

// What a request gave. In the library's words it is an Option<Result<Option<u32>, Fault>>, which is no plainer: done would be Some(Ok(None)).
#[derive(Clone, Copy, PartialEq, Eq, Debug)]
pub enum Answer {
    // no call was made: a begin while a slip is held, or a finish or withdraw without one
    Nothing,
    Done,
    // how many tasks are left
    Left(u32),
    Refused(Fault),
}

impl From<Result<(), Fault>> for Answer {
    ghost from_gives = { λ x r. told_reply r ≡ reply (told x) done };

    fn from(called: Result<(), Fault>) -> Self {
        called.map_or_else(Answer::Refused, |()| Answer::Done)
    }
}

impl From<Result<u32, Fault>> for Answer {
    ghost from_gives = { λ x r. told_reply r ≡ count_reply x };

    fn from(left: Result<u32, Fault>) -> Self {
        left.map_or_else(Answer::Refused, Answer::Left)
    }
}
