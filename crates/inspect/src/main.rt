// Reads a mesh text from standard input and says in plain words what it holds, or why it is refused.
#![tactic(auto)]

use lines::{Counts, TablesMut, read, read_counts};
use mesh::fault::Fault;
use std::alloc::AllocError;
use std::io::Read;
use tally::Tally;

mod tally;

// The longest text of a lawful mesh: line 0 has 17 bytes, the line of a quad 55 at most and that of a point 10.
const LONGEST: u64 = 17 + 55 * 1_048_576 + 10 * 2_097_152;

// The most quads and points that a lawful mesh has, as `tables` has them, on which this program does not stand.
const QUADS: u32 = 1_048_576;

const POINTS: u32 = 2_097_152;

// The refusal as a frame, and in words.
fn refuse(rt: &HostRuntime, fault: Fault) -> anyhow::Result<()> {
    let number = fault.number();
    let place = fault.place();
    println!(rt; "ff {number:x} {place:x}")?;
    println!(rt; "Refused with {fault}.")?;
    Ok(())
}

// What a text of these counts and marks holds.
fn report(rt: &HostRuntime, counts: Counts, tally: Tally) -> anyhow::Result<()> {
    let Counts { quads, points } = counts;
    let lines = 1 + u64::from(quads) + u64::from(points);
    let less = i64::from(points) - i64::from(quads);
    let Tally {
        smooth,
        semi_sharp,
        infinite,
        no_mark,
    } = tally;
    println!(rt; "A mesh text of {lines} lines.")?;
    println!(rt; "It has {quads} quads and {points} points; points less quads: {less}.")?;
    println!(rt;
        "Of its off-edges {smooth} are smooth, {semi_sharp} semi-sharp and {infinite} infinite."
    )?;
    if no_mark > 0 {
        println!(rt; "{no_mark} mark words stand for no mark.")?;
    }
    println!(rt; "Whether the mesh is sound was not examined.")?;
    Ok(())
}

// Why nothing is reported. The two `From`s by hand: a derive of them would ask for a text and Debug too, which nothing here uses.
enum Stop {
    Refused(Fault),
    NoMemory(AllocError),
}

impl From<Fault> for Stop {
    fn from(fault: Fault) -> Self {
        Stop::Refused(fault)
    }
}

impl From<AllocError> for Stop {
    fn from(error: AllocError) -> Self {
        Stop::NoMemory(error)
    }
}

fn inspect(rt: &HostRuntime, text: &[u8]) -> Result<(Counts, Tally), Stop> {
    if text.len() as u64 > LONGEST {
        return Err(Stop::Refused(Fault::TooShort));
    }
    let stated = read_counts(text)?;
    let quads = stated.quads.min(QUADS) as usize;
    let points = stated.points.min(POINTS) as usize;
    let heap = rt.alloc();
    let mut corners = vec![in heap; 0u32; 4 * quads]?;
    let mut friends = vec![in heap; 0u32; 2 * quads]?;
    let mut marks = vec![in heap; 0u32; 2 * quads]?;
    let mut starts = vec![in heap; 0u32; points]?;
    let mut tables = TablesMut {
        corners: &mut corners,
        friends: &mut friends,
        marks: &mut marks,
        starts: &mut starts,
    };
    let counts = read(text, &mut tables)?;
    Ok((counts, tally::count(&marks)))
}

fn main(rt: HostRuntime) -> anyhow::Result<()> {
    let mut text = Vec::new(rt.alloc());
    rt.stdin().take(LONGEST + 1).read_to_end(&mut text)?;
    match inspect(&rt, &text) {
        Ok((counts, tally)) => report(&rt, counts, tally),
        Err(Stop::Refused(fault)) => refuse(&rt, fault),
        Err(Stop::NoMemory(error)) => Err(error.into()),
    }
}
