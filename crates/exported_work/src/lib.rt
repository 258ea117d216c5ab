// Requests and answers as rows of numbers, in which a program in Rust or C asks a bench.
#![tactic(auto)]

ghost use Rattle.std.specs.Prelude.{◌≡◌};
ghost use Rattle.layout.specs.Layout.{block};
ghost use Rattle.requests.specs.Sessions.{asked, told_reply};
ghost use Rattle.requests.specs.declared.request.Answer.{Answer};
ghost use Rattle.exported_work.specs.Works.{asked_by, numbers_of};

use mesh::number::{Point, Quad};
use requests::form::Form;
use requests::request::{Answer, Request};
use tables::lent::Tables;

// A row has its kind in front: 0 a load, 1 a begin, 2 the task of a quad, 3 that of a point, 4 a finish, and each other kind a withdraw.
// Then comes the number of the quad or the point, or the place in the store where the four tables of a load begin, side by side; then how many words each of these has.
// An answer is 0 for no call, 1 for done, 2 and the tasks that are left, or 3 and the number and the place of a refusal; what it lacks of three numbers is 0.
#[derive(Clone, Copy)]
pub struct Numbers<'s> {
    pub store: &'s [u32],
}

impl<'s> Numbers<'s> {
    // At most `count` words of the store, from `at` on.
    fn part(&self, at: usize, count: u32) -> &'s [u32]
        ensures { result.now ≡ block self.now.store.now at count }
    {
        let rest = self.store.get(at..).unwrap_or(&[]);
        rest.get(..count as usize).unwrap_or(rest)
    }
}

impl<'s> Form<'s> for Numbers<'s> {
    type Row = [u32; 6];

    type Kept = [u32; 3];

    ghost asks = { λ form row. asked_by form.store.now row };

    ghost keeps = { λ answer. numbers_of (told_reply answer) };

    fn request(&self, row: &[u32; 6]) -> Request<'s>
        ensures { asked result ≡ asked_by self.now.store.now row.now }
    {
        let [kind, at, corners, friends, marks, starts] = *row;
        match kind {
            0 => {
                let friends_at = at as usize + corners as usize;
                let marks_at = friends_at + friends as usize;
                let starts_at = marks_at + marks as usize;
                Request::Load(Tables {
                    corners: self.part(at as usize, corners),
                    friends: self.part(friends_at, friends),
                    marks: self.part(marks_at, marks),
                    starts: self.part(starts_at, starts),
                })
            }
            1 => Request::Begin,
            2 => Request::RunQuad(Quad(at)),
            3 => Request::RunPoint(Point(at)),
            4 => Request::Finish,
            _ => Request::Withdraw,
        }
    }

    fn kept(&self, answer: Answer) -> [u32; 3]
        ensures { result ≡ numbers_of (told_reply answer) }
    {
        match answer {
            Answer::Nothing => [0, 0, 0],
            Answer::Done => [1, 0, 0],
            Answer::Left(left) => [2, left, 0],
            Answer::Refused(fault) => [3, u32::from(fault.number()), fault.place()],
        }
    }
}
