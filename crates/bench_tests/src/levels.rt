// Four levels on one bench, with tasks by number, and in reverse with repeats.
use crate::meshes::stands_lawful;
use bench::bench::Bench;
use bench::level::Level;
use mesh::number::{Point, Quad};
use questions::Questions;
use requests::perform::work;
use requests::request::{Answer, Request};
use std::alloc::Global;
use std::process::Abort;
use std::test::*;
use tables::lent::Tables;

// 128 quads and 130 points are refined in so many words, and 512 quads and 514 points have so many.
const WORDS: usize = 6022;

const LAST: usize = 4610;

// The pillow, with a semi-sharp edge that is smooth again two levels on, and an infinite one.
const PILLOW: Tables<'static> = Tables {
    corners: &[0, 1, 2, 3, 2, 1, 0, 3],
    friends: &[2, 3, 0, 1],
    marks: &[300, 0, 0, 65535],
    starts: &[0, 1, 2, 3],
};

// A begin, the tasks by number, and a finish.
fn forward(alloc: Global, quads: u32, points: u32) -> Result<Vec<Request<'static>>, Fail> {
    let mut all = Vec::new(alloc);
    all.push(Request::Begin)?;
    for q in 0..quads {
        all.push(Request::RunQuad(Quad(q)))?;
    }
    for v in 0..points {
        all.push(Request::RunPoint(Point(v)))?;
    }
    all.push(Request::Finish)?;
    Ok(all)
}

// A begin, the tasks from the last to the first with every third again, and a finish; a finish that comes too early is refused.
fn backward(alloc: Global, quads: u32, points: u32) -> Result<Vec<Request<'static>>, Fail> {
    let mut all = Vec::new(alloc);
    all.push(Request::Begin)?;
    for v in (0..points).rev() {
        all.push(Request::RunPoint(Point(v)))?;
    }
    all.push(Request::Finish)?;
    for q in (0..quads).rev() {
        all.push(Request::RunQuad(Quad(q)))?;
        all.push(Request::RunPoint(Point(q / 3)))?;
    }
    all.push(Request::Finish)?;
    Ok(all)
}

// Refines the standing level once by these requests.
fn refined(alloc: Global, bench: &mut Bench<'_>, back: bool) -> Result<(u32, u32), Fail> {
    let (quads, points) = bench.counts(Level::Standing).unwrap_or((0, 0));
    let requests = if back {
        backward(alloc, quads, points)?
    } else {
        forward(alloc, quads, points)?
    };
    let mut answers = vec![in alloc; Answer::Nothing; requests.len()]?;
    work(bench, requests.as_slice(), answers.as_mut_slice());
    Ok(bench.counts(Level::Standing).unwrap_or((0, 0)))
}

// The words after four levels, whose counts are checked, and which are lawful.
fn four_levels(rt: &impl Abort, alloc: Global, back: bool) -> Result<Vec<u32>, Fail> {
    let mut words = vec![in alloc; 0u32; WORDS]?;
    let mut bench = Bench::new(words.as_mut_slice(), 1);
    assert!(rt; bench.load(&PILLOW).is_ok());
    for counts in [(8, 10), (32, 34), (128, 130), (512, 514)] {
        assert_eq!(rt; refined(alloc, &mut bench, back)?, counts);
        assert!(rt; stands_lawful(&bench));
    }
    Ok(words)
}

#[test]
fn four_levels_are_the_same_in_any_order(rt: HostRuntime) -> Result<(), Fail> {
    let one = four_levels(&rt, rt.alloc(), false)?;
    let other = four_levels(&rt, rt.alloc(), true)?;
    let mut checked = 0u32;
    for (a, b) in one.iter().zip(other.iter()).take(LAST) {
        assert_eq!(rt; *a, *b);
        checked = checked.wrapping_add(1);
    }
    assert_eq!(rt; checked, 4610);
    Ok(())
}
