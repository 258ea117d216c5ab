// Numbers past 16 bits, and the largest level that can be refined.
use crate::meshes::{Made, stands_lawful};
use bench::bench::Bench;
use bench::level::Level;
use mesh::number::{Edge, OffEdge};
use questions::Questions;
use refining::once::refine_once;
use requests::perform::work;
use requests::request::{Answer, Request};
use std::test::*;
use tables::lent::Tables;

// What a begin answers of such a mesh, on a bench with words enough: its number, and 0 where it is carried out.
fn begun(rt: &HostRuntime, tables: &Tables<'_>, words: usize) -> Result<u8, Fail> {
    let mut words = vec![in rt.alloc(); 0u32; words]?;
    let mut bench = Bench::new(words.as_mut_slice(), 1);
    if let Err(fault) = bench.load(tables) {
        return Ok(fault.number());
    }
    let mut answers = [Answer::Nothing];
    work(&mut bench, &[Request::Begin], &mut answers);
    match answers[0] {
        Answer::Refused(fault) => Ok(fault.number()),
        Answer::Done => Ok(0),
        _ => Ok(99),
    }
}

#[test]
fn a_level_of_262_144_quads_can_be_refined(rt: HostRuntime) -> Result<(), Fail> {
    let mut made = Made::new(rt.alloc());
    made.pillows(131_072)?;
    assert_eq!(rt; begun(&rt, &made.tables(), 44 * 262_144 + 3 * 524_288)?, 0);
    Ok(())
}

#[test]
fn a_level_of_262_145_quads_cannot(rt: HostRuntime) -> Result<(), Fail> {
    let mut made = Made::new(rt.alloc());
    made.pillows(131_071)?;
    made.spindle(262_142, 524_284, 3)?;
    assert_eq!(rt; begun(&rt, &made.tables(), 44 * 262_145 + 3 * 524_289)?, 13);
    Ok(())
}

// 65,538 quads become 262,152: numbers of quads, and of friends, that 16 bits do not hold.
#[test]
fn no_count_wraps_at_65_536(rt: HostRuntime) -> Result<(), Fail> {
    let mut made = Made::new(rt.alloc());
    made.pillows(32_769)?;
    let mut words = vec![in rt.alloc(); 0u32; 44 * 65_538 + 3 * 131_076]?;
    let mut bench = Bench::new(words.as_mut_slice(), 1);
    assert!(rt; bench.load(&made.tables()).is_ok());
    assert!(rt; refine_once(&mut bench).is_ok());
    assert_eq!(rt;
        bench.counts(Level::Standing).unwrap_or((0, 0)),
        (262_152, 327_690)
    );
    // the last quad is 65,537, and the friends of its off-edges are edges 131,072 and 131,073
    let last = 8 * 65_537;
    let friend = bench.friend(Level::Standing, OffEdge(last + 1));
    assert_eq!(rt; friend.unwrap_or(Edge(0)), Edge(4 * 131_073));
    let friend = bench.friend(Level::Standing, OffEdge(last + 5));
    assert_eq!(rt; friend.unwrap_or(Edge(0)), Edge(4 * 131_072));
    assert!(rt; stands_lawful(&bench));
    Ok(())
}
