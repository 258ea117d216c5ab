// A slip of another bench, and questions to a level in work. Every slip is spent, and it is proved that it can be.
ghost use Rattle.std.specs.Prelude.{◌≡◌, ◌≢◌};
ghost use Rattle.bench.specs.Model.{state};
ghost use Rattle.chain.specs.Calls.{refusal, withdraw};
ghost use Rattle.mesh.specs.Refusals.{fine};

use bench::bench::Bench;
use bench::bench::slip::{Declined, Slip};
use bench::level::Level;
use mesh::fault::Fault;
use mesh::mark::Mark;
use mesh::number::{Corner, Edge, OffEdge, Point, Quad};
use questions::Questions;
use std::test::*;
use tables::lent::Tables;

const PILLOW: Tables<'static> = Tables {
    corners: &[0, 1, 2, 3, 2, 1, 0, 3],
    friends: &[2, 3, 0, 1],
    marks: &[0, 0, 300, 0],
    starts: &[0, 1, 2, 3],
};

// Withdraws the level in work whose slip this is.
fn close(bench: &mut Bench<'_>, slip: Slip)
    requires { refusal (state bench.old) (withdraw slip.mark) ≡ fine }
{
    match bench.withdraw(slip) {
        Ok(()) => (),
        Err(_) => unreachable(),
    }
}

// What a finish and a withdraw answer to the slip of another bench, as numbers and places.
fn strange(one: &mut Bench<'_>, other: &mut Bench<'_>) -> [(u8, u32); 2]
    requires { (state one.old).mark ≢ (state other.old).mark }
{
    let Ok(slip) = one.begin() else {
        return [(0, 0); 2];
    };
    let Ok(own) = other.begin() else {
        close(one, slip);
        return [(0, 0); 2];
    };
    let Err(Declined { fault: first, slip }) = other.finish(slip) else {
        unreachable()
    };
    let Err(
        Declined {
            fault: second,
            slip,
        },
    ) = other.withdraw(slip)
    else {
        unreachable()
    };
    close(one, slip);
    close(other, own);
    [
        (first.number(), first.place()),
        (second.number(), second.place()),
    ]
}

#[test]
fn a_slip_of_another_bench_is_refused(rt: HostRuntime) -> Result<(), Fail> {
    let mut words = [0; 100];
    let mut one = Bench::new(&mut words, 7);
    let mut more = [0; 100];
    let mut other = Bench::new(&mut more, 8);
    let _ = one.load(&PILLOW);
    let _ = other.load(&PILLOW);
    assert_eq!(rt; strange(&mut one, &mut other), [(17, 0), (17, 0)]);
    Ok(())
}

// What a level in work shows before a task has run, and once quad 0's has: its counts, a quad, an off-edge, a start.
fn glimpses(bench: &mut Bench<'_>) -> [u32; 8] {
    let Ok(slip) = bench.begin() else {
        return [99; 8];
    };
    let (quads, points) = bench.counts(Level::InWork).unwrap_or((99, 99));
    let blank = bench.corner(Level::InWork, Corner(31)).unwrap_or(Point(99));
    let _ = bench.quad(Quad(0));
    let corners = bench
        .quad_points(Level::InWork, Quad(1))
        .unwrap_or([Point(99); 4]);
    let (begin, end, mark) = bench
        .off_edge(Level::InWork, OffEdge(3))
        .unwrap_or((Point(99), Point(99), Mark::Infinite));
    close(bench, slip);
    [
        quads,
        points,
        blank.0,
        corners[1].0,
        corners[3].0,
        begin.0,
        end.0,
        mark.into(),
    ]
}

#[test]
fn a_level_in_work_can_be_asked_about(rt: HostRuntime) -> Result<(), Fail> {
    let mut words = [0; 100];
    let mut bench = Bench::new(&mut words, 7);
    let _ = bench.load(&PILLOW);
    assert_eq!(rt; glimpses(&mut bench), [8, 10, 0, 6, 2, 2, 4, 0]);
    Ok(())
}

// The number and the place of a refusal; 0 and 0 where there is none.
pub fn told<A: Drop>(answer: Result<A, Fault>) -> (u8, u32) {
    match answer {
        Ok(_) => (0, 0),
        Err(fault) => (fault.number(), fault.place()),
    }
}

#[test]
fn questions_are_refused(rt: HostRuntime) -> Result<(), Fail> {
    let mut words = [0; 100];
    let mut bench = Bench::new(&mut words, 7);
    assert_eq!(rt; told(bench.counts(Level::InWork)), (12, 0));
    assert_eq!(rt; told(bench.start(Level::Standing, Point(9))), (12, 0));
    let _ = bench.load(&PILLOW);
    assert_eq!(rt; told(bench.counts(Level::InWork)), (15, 0));
    assert_eq!(rt; told(bench.corner(Level::Standing, Corner(8))), (16, 8));
    assert_eq!(rt; told(bench.edge(Level::Standing, Edge(4))), (16, 4));
    assert_eq!(rt; told(bench.friend(Level::Standing, OffEdge(4))), (16, 4));
    assert_eq!(rt; told(bench.off_edge(Level::Standing, OffEdge(5))), (16, 5));
    assert_eq!(rt; told(bench.quad_points(Level::Standing, Quad(2))), (16, 2));
    assert_eq!(rt; told(bench.start(Level::Standing, Point(4))), (16, 4));
    Ok(())
}
