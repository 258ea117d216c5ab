// Values and corner values of the next level, on examples.
// The pillow is two quads back to back; the cube has six; the drum has ten, and two points of valence 5.
#![tactic(auto)]

#[cfg(test)]
mod tests {
    use attributes::colour::Colour;
    use attributes::coordinates::Coordinates;
    use attributes::influence::Influence;
    use carry::lent::{corners, values};
    use kinds::row::Rowed;
    use mesh::fault::Fault;
    use tables::lent::Tables;

    const PILLOW_CORNERS: [u32; 8] = [0, 1, 2, 3, 2, 1, 0, 3];

    const PILLOW_FRIENDS: [u32; 4] = [2, 3, 0, 1];

    const PILLOW_STARTS: [u32; 4] = [0, 1, 2, 3];

    const FOUR: [[i32; 3]; 4] = [[0, 0, 0], [16, 0, 0], [32, 0, 0], [48, 0, 0]];

    const CUBE_CORNERS: [u32; 24] = [
        0, 1, 4, 2, 0, 2, 5, 3, 0, 3, 6, 1, 5, 2, 4, 7, 6, 3, 5, 7, 4, 1, 6, 7,
    ];

    const CUBE_FRIENDS: [u32; 12] = [10, 2, 6, 4, 8, 0, 1, 9, 3, 11, 5, 7];

    const CUBE_STARTS: [u32; 8] = [0, 1, 5, 9, 2, 6, 10, 15];

    const DRUM_CORNERS: [u32; 40] = [
        0, 1, 6, 2, 0, 2, 7, 3, 0, 3, 8, 4, 0, 4, 9, 5, 0, 5, 10, 1, 7, 2, 6, 11, 8, 3, 7, 11, 9,
        4, 8, 11, 10, 5, 9, 11, 6, 1, 10, 11,
    ];

    const DRUM_FRIENDS: [u32; 20] = [
        18, 2, 10, 4, 12, 6, 14, 8, 16, 0, 1, 13, 3, 15, 5, 17, 7, 19, 9, 11,
    ];

    const DRUM_STARTS: [u32; 12] = [0, 1, 5, 9, 13, 17, 2, 6, 10, 14, 18, 23];

    // The number and the place of a refusal; 0 and 0 where there is none.
    fn told(res: Result<(), Fault>) -> (u8, u32) {
        match res {
            Ok(()) => (0, 0),
            Err(fault) => (fault.number(), fault.place()),
        }
    }

    fn pillow<'a>(marks: &'a [u32]) -> Tables<'a> {
        Tables {
            corners: &PILLOW_CORNERS,
            friends: &PILLOW_FRIENDS,
            marks,
            starts: &PILLOW_STARTS,
        }
    }

    #[test]
    fn coordinates_on_the_pillow(rt: HostRuntime) {
        let mut out = [[7; 3]; 10];
        assert_eq!(rt;
            told(values::<Coordinates>(&pillow(&[0; 4]), &FOUR, &mut out)),
            (0, 0)
        );
        assert_eq!(rt;
            out,
            [
                [28, 0, 0],
                [24, 0, 0],
                [16, 0, 0],
                [32, 0, 0],
                [20, 0, 0],
                [24, 0, 0],
                [24, 0, 0],
                [24, 0, 0],
                [28, 0, 0],
                [20, 0, 0],
            ]
        );
    }

    #[test]
    fn marks_on_the_pillow(rt: HostRuntime) {
        let mut out = [[7; 3]; 10];
        assert_eq!(rt;
            told(values::<Coordinates>(&pillow(&[0, 0, 128, 0]), &FOUR, &mut out)),
            (0, 0)
        );
        assert_eq!(rt; out[2], [12, 0, 0]);
        assert_eq!(rt;
            told(values::<Coordinates>(&pillow(&[0, 0, 256, 0]), &FOUR, &mut out)),
            (0, 0)
        );
        assert_eq!(rt; out[2], [8, 0, 0]);
        assert_eq!(rt;
            told(values::<Coordinates>(&pillow(&[0, 65535, 65535, 0]), &FOUR, &mut out)),
            (0, 0)
        );
        assert_eq!(rt; out[0], [8, 0, 0]);
    }

    #[test]
    fn influences_on_the_pillow(rt: HostRuntime) {
        let mut out = [0; 10];
        assert_eq!(rt;
            told(values::<Influence>(&pillow(&[0; 4]), &[1, 2, 4, 8], &mut out)),
            (0, 0)
        );
        assert_eq!(rt; out, [15; 10]);
        assert_eq!(rt;
            told(values::<Influence>(&pillow(&[0, 0, 65535, 0]), &[1, 2, 4, 8], &mut out)),
            (0, 0)
        );
        assert_eq!(rt; out, [15, 15, 3, 15, 15, 15, 15, 15, 15, 15]);
    }

    // Three marked edges at a point, one of them infinite, and all semi-sharp.
    #[test]
    fn a_corner_of_the_cube(rt: HostRuntime) {
        let rows = [
            [0, 0, 0],
            [1000, 0, 0],
            [-700, 0, 0],
            [333, 0, 0],
            [90, 0, 0],
            [-5000, 0, 0],
            [12345, 0, 0],
            [77, 0, 0],
        ];
        let mut out = [[7; 3]; 26];
        let mut tables = Tables {
            corners: &CUBE_CORNERS,
            friends: &CUBE_FRIENDS,
            marks: &[0, 100, 0, 200, 0, 65535, 0, 0, 0, 0, 0, 0],
            starts: &CUBE_STARTS,
        };
        assert_eq!(rt;
            told(values::<Coordinates>(&tables, &rows, &mut out)),
            (0, 0)
        );
        assert_eq!(rt;
            (out[0], out[2], out[24]),
            ([0, 0, 0], [500, 0, 0], [5242, 0, 0])
        );
        tables.marks = &[0, 100, 0, 200, 0, 50, 0, 0, 0, 0, 0, 0];
        assert_eq!(rt;
            told(values::<Coordinates>(&tables, &rows, &mut out)),
            (0, 0)
        );
        assert_eq!(rt;
            (out[0], out[2], out[24]),
            ([170, 0, 0], [1006, 0, 0], [5242, 0, 0])
        );
    }

    // Two marked edges at a point of valence 5.
    #[test]
    fn a_crease_of_the_drum(rt: HostRuntime) {
        let tables = Tables {
            corners: &DRUM_CORNERS,
            friends: &DRUM_FRIENDS,
            marks: &[
                0, 300, 0, 0, 0, 40, 0, 0, 0, 0, 0, 0, 0, 0, 0, 0, 0, 0, 0, 0,
            ],
            starts: &DRUM_STARTS,
        };
        let mut out = [[7; 3]; 42];
        assert_eq!(rt;
            told(values::<Coordinates>(
                &tables,
                &[
                    [0, 0, 0],
                    [48, 0, 0],
                    [170, 0, 0],
                    [366, 0, 0],
                    [636, 0, 0],
                    [980, 0, 0],
                    [389, 0, 0],
                    [881, 0, 0],
                    [438, 0, 0],
                    [69, 0, 0],
                    [783, 0, 0],
                    [562, 0, 0],
                ],
                &mut out,
            )),
            (0, 0)
        );
        assert_eq!(rt;
            (out[0], out[4], out[41]),
            ([120, 0, 0], [263, 0, 0], [541, 0, 0])
        );
    }

    #[test]
    fn colours_on_the_pillow(rt: HostRuntime) {
        let mut out = [[7; 3]; 32];
        assert_eq!(rt;
            told(corners::<Colour>(
                &pillow(&[0; 4]),
                &[
                    [0, 0, 0],
                    [10, 0, 0],
                    [21, 0, 0],
                    [32, 0, 0],
                    [43, 0, 0],
                    [7, 0, 0],
                    [255, 0, 0],
                    [254, 0, 0],
                ],
                &mut out,
            )),
            (0, 0)
        );
        assert_eq!(rt;
            out,
            [
                [0, 0, 0],
                [5, 0, 0],
                [15, 0, 0],
                [16, 0, 0],
                [10, 0, 0],
                [15, 0, 0],
                [15, 0, 0],
                [5, 0, 0],
                [21, 0, 0],
                [26, 0, 0],
                [15, 0, 0],
                [15, 0, 0],
                [32, 0, 0],
                [16, 0, 0],
                [15, 0, 0],
                [26, 0, 0],
                [43, 0, 0],
                [25, 0, 0],
                [139, 0, 0],
                [148, 0, 0],
                [7, 0, 0],
                [131, 0, 0],
                [139, 0, 0],
                [25, 0, 0],
                [255, 0, 0],
                [254, 0, 0],
                [139, 0, 0],
                [131, 0, 0],
                [254, 0, 0],
                [148, 0, 0],
                [139, 0, 0],
                [254, 0, 0],
            ]
        );
    }

    #[test]
    fn refusals_of_values(rt: HostRuntime) {
        let mut out = [[7; 3]; 10];
        let mut short = [[7; 3]; 9];
        let far = [[0, 0, 0], [0, 0, 0], [0, 16_777_217, 0], [0, 0, 16_777_217]];
        assert_eq!(rt;
            told(values::<Coordinates>(&pillow(&[0, 0, 4097, 0]), &far, &mut short)),
            (6, 2)
        );
        assert_eq!(rt;
            told(values::<Coordinates>(&pillow(&[0; 4]), &far, &mut short)),
            (19, 0)
        );
        assert_eq!(rt;
            told(values::<Coordinates>(&pillow(&[0; 4]), &[[0; 3]; 3], &mut out)),
            (19, 0)
        );
        assert_eq!(rt;
            told(values::<Coordinates>(&pillow(&[0; 4]), &far, &mut out)),
            (20, 2)
        );
        assert_eq!(rt; (short, out), ([[7; 3]; 9], [[7; 3]; 10]));
    }

    #[test]
    fn refusals_of_corners(rt: HostRuntime) {
        let mut out = [[7; 3]; 32];
        let mut short = [[7; 3]; 31];
        assert_eq!(rt;
            told(corners::<Colour>(&pillow(&[0, 0, 4097, 0]), &[[0; 3]; 8], &mut out)),
            (6, 2)
        );
        assert_eq!(rt;
            told(corners::<Colour>(&pillow(&[0; 4]), &[[0; 3]; 7], &mut out)),
            (19, 0)
        );
        assert_eq!(rt;
            told(corners::<Colour>(&pillow(&[0; 4]), &[[0; 3]; 8], &mut short)),
            (19, 0)
        );
        assert_eq!(rt; (short, out), ([[7; 3]; 31], [[7; 3]; 32]));
    }
}
