// What the calls for a program in Rust or C answer, in numbers alone, and what those on a bench are made of.
#![tactic(auto)]

ghost use Rattle.std.specs.Prelude.{◌≡◌};
ghost use Rattle.mesh.specs.Refusals.{told};
ghost use Rattle.exported.specs.Answers.{refusal_of, found_of};

use lines::Counts;
use mesh::fault::Fault;

pub mod benches;

// The number and the place of a refusal; both are 0 where nothing is refused. The two below repeat them flat, since C reads them so.
#[repr(C)]
#[derive(Clone, Copy)]
pub struct Refusal {
    pub number: u32,
    pub place: u32,
}

// What reading a text found: its counts, or a refusal and counts of 0.
#[repr(C)]
#[derive(Clone, Copy)]
pub struct Found {
    pub number: u32,
    pub place: u32,
    pub quads: u32,
    pub points: u32,
}

// How many bytes were written, or a refusal and 0.
#[repr(C)]
#[derive(Clone, Copy)]
pub struct Written {
    pub number: u32,
    pub place: u32,
    pub count: usize,
}

impl From<Result<(), Fault>> for Refusal {
    ghost from_gives = { λ answer refusal. refusal ≡ refusal_of (told answer) };

    fn from(answer: Result<(), Fault>) -> Refusal {
        match answer {
            Ok(()) => Refusal {
                number: 0,
                place: 0,
            },
            Err(fault) => Refusal {
                number: u32::from(fault.number()),
                place: fault.place(),
            },
        }
    }
}

impl From<Result<Counts, Fault>> for Found {
    ghost from_gives = { λ answer found. found ≡ found_of answer };

    fn from(answer: Result<Counts, Fault>) -> Found {
        let Refusal { number, place } = Refusal::from(answer.map(|_| ()));
        let (quads, points) = answer.map_or((0, 0), |counts| (counts.quads, counts.points));
        Found {
            number,
            place,
            quads,
            points,
        }
    }
}
