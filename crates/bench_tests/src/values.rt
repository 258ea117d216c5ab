// Values and corner values of a bench's standing level.
use crate::meshes::Made;
use crate::slips::told;
use attributes::colour::Colour;
use attributes::coordinates::Coordinates;
use attributes::influence::Influence;
use attributes::texture::Texture;
use bench::bench::Bench;
use carry::standing::{corners, values};
use kinds::row::Rowed;
use std::test::*;
use tables::lent::Tables;

const PILLOW: Tables<'static> = Tables {
    corners: &[0, 1, 2, 3, 2, 1, 0, 3],
    friends: &[2, 3, 0, 1],
    marks: &[0; 4],
    starts: &[0, 1, 2, 3],
};

#[test]
fn values_of_a_bench_are_refused(rt: HostRuntime) -> Result<(), Fail> {
    let mut words = [0; 20];
    let mut bench = Bench::new(&mut words, 1);
    let mut out = [7; 10];
    assert_eq!(rt;
        told(values::<Influence>(&bench, &[1; 4], &mut out)),
        (12, 0)
    );
    assert!(rt; bench.load(&PILLOW).is_ok());
    assert_eq!(rt;
        told(values::<Influence>(&bench, &[1; 5], &mut out)),
        (19, 0)
    );
    assert_eq!(rt; out, [7; 10]);
    // 20 words suffice: values open no level in work
    assert_eq!(rt;
        told(values::<Influence>(&bench, &[1; 4], &mut out)),
        (0, 0)
    );
    assert_eq!(rt; out, [1; 10]);
    let mut colours = [[7; 3]; 32];
    assert_eq!(rt;
        told(corners::<Colour>(&bench, &[[9; 3]; 8], &mut colours)),
        (0, 0)
    );
    assert_eq!(rt; colours, [[9; 3]; 32]);
    Ok(())
}

#[test]
fn values_of_too_large_a_level_are_refused(rt: HostRuntime) -> Result<(), Fail> {
    let mut made = Made::new(rt.alloc());
    made.pillows(131_071)?;
    made.spindle(262_142, 524_284, 3)?;
    let mut words = vec![in rt.alloc(); 0u32; 8 * 262_145 + 524_289]?;
    let mut bench = Bench::new(words.as_mut_slice(), 1);
    assert!(rt; bench.load(&made.tables()).is_ok());
    // 13 comes before the lengths, which are wrong too
    assert_eq!(rt; told(values::<Influence>(&bench, &[], &mut [])), (13, 0));
    assert_eq!(rt; told(corners::<Colour>(&bench, &[], &mut [])), (13, 0));
    Ok(())
}

#[test]
fn texture_pairs_on_the_pillow(rt: HostRuntime) -> Result<(), Fail> {
    let mut words = [0; 20];
    let mut bench = Bench::new(&mut words, 1);
    assert!(rt; bench.load(&PILLOW).is_ok());
    let mut rows = [[1.0, -0.0]; 8];
    rows[1] = [2.0, -0.0];
    rows[2] = [65536.0, 0.0];
    let mut out = [[7.0f32; 2]; 32];
    assert_eq!(rt; told(corners::<Texture>(&bench, &rows, &mut out)), (0, 0));
    // corner 0: its own value, the middle to the next, the centre, the middle from the previous
    assert!(rt; out[0][0] == 1.0 && out[1][0] == 1.5 && out[3][0] == 1.0);
    assert!(rt; out[2][0] == 16385.0 && out[5][0] == 32769.0);
    assert!(rt; out[1][1] == 0.0 && out[1][1].is_sign_negative());
    assert!(rt; out[5][1] == 0.0 && out[5][1].is_sign_positive());
    rows[3] = [f32::NAN, 0.0];
    rows[5] = [0.0, 65536.01];
    let mut same = [[7.0f32; 2]; 32];
    assert_eq!(rt; told(corners::<Texture>(&bench, &rows, &mut same)), (20, 3));
    for row in same {
        assert!(rt; row[0] == 7.0 && row[1] == 7.0);
    }
    Ok(())
}

// Two poles of valence 64, and 64 points of valence 2 between them.
#[test]
fn valences_2_and_64(rt: HostRuntime) -> Result<(), Fail> {
    let mut made = Made::new(rt.alloc());
    made.spindle(0, 0, 64)?;
    let mut words = vec![in rt.alloc(); 0u32; 578]?;
    let mut bench = Bench::new(words.as_mut_slice(), 1);
    assert!(rt; bench.load(&made.tables()).is_ok());
    let mut rows = [[128, 0, 0]; 66];
    rows[0] = [0, 0, 0];
    rows[1] = [0, 0, 0];
    let mut out = [[7; 3]; 258];
    assert_eq!(rt;
        told(values::<Coordinates>(&bench, &rows, &mut out)),
        (0, 0)
    );
    // (64 * 6 * 128) / 16,384 and (2 * 128 + 2 * 128) / 16
    assert_eq!(rt;
        (out[0], out[4], out[8], out[257]),
        ([3, 0, 0], [3, 0, 0], [32, 0, 0], [32, 0, 0])
    );
    // with every edge infinite the poles, with 64 marked edges each, stay; the weights reach their cap
    made.mark_all(65535);
    assert!(rt; bench.load(&made.tables()).is_ok());
    rows[0] = [7, 0, 0];
    assert_eq!(rt;
        told(values::<Coordinates>(&bench, &rows, &mut out)),
        (0, 0)
    );
    // (6 * 128 + 7 + 0) / 8
    assert_eq!(rt;
        (out[0], out[4], out[8]),
        ([7, 0, 0], [0, 0, 0], [97, 0, 0])
    );
    Ok(())
}
