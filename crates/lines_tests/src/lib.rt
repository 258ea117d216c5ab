// Texts, right and damaged, with what reading them answers.
#![tactic(auto)]

#[cfg(test)]
mod tests {
    use lines::{Counts, TablesMut, read, read_counts};
    use mesh::fault::Fault;

    const PILLOW: &[u8] =
        b"00 2 4\n01 0 1 2 3 2 3 0 0\n01 2 1 0 3 0 1 0 0\n02 0\n02 1\n02 2\n02 3\n";

    // Each damaged text with the line at fault.
    const DAMAGED: [(&[u8], u32); 30] = [
        (b"", 0),
        (b"00", 0),
        (b"00 2 4", 0),
        (b"00 2\n", 0),
        (b"00 2 4 0\n", 0),
        (b"01 2 4\n", 0),
        (b"ff 2 4\n", 0),
        (b"00 02 4\n", 0),
        (b"00 2  4\n", 0),
        (b"00  2 4\n", 0),
        (b" 00 2 4\n", 0),
        (b"00 2 4 \n", 0),
        (b"00 2 A\n", 0),
        (b"00 2 g\n", 0),
        (b"00 2 /\n", 0),
        (b"00 2 4\r\n", 0),
        (b"00\t2 4\n", 0),
        (b"00 1000000 4\n", 0),
        (b"00 0 0\n\n", 1),
        (b"00 0 0\n0", 1),
        (b"00 0 1\n", 1),
        (b"00 0 1\n02\n", 1),
        (b"00 0 1\n02 0 0\n", 1),
        (b"00 0 1\n01 0\n", 1),
        (b"00 0 2\n02 0\n02 00\n", 2),
        (b"00 1 1\n01 0 0 0 0 0 0 0\n02 0\n", 1),
        (b"00 1 1\n01 0 0 0 0 0 0 0 0 0\n02 0\n", 1),
        (b"00 1 1\n01 0 0 0 0 0 0 0 0\n02 0", 2),
        (b"00 1 1\n01 0 0 0 0 0 0 0 0\n", 2),
        (b"00 1 1\n01 0 0 0 0 0 0 0 0\n02 0\n02 0\n", 3),
    ];

    // Room for two quads and four points, and one word more in each table, which no reading may touch.
    #[derive(Drop)]
    struct Lent {
        corners: [u32; 9],
        friends: [u32; 5],
        marks: [u32; 5],
        starts: [u32; 5],
    }

    // Reads a text into tables that were full of 7s.
    fn read_small(text: &[u8]) -> (Result<Counts, Fault>, Lent) {
        let mut corners = [7; 9];
        let mut friends = [7; 5];
        let mut marks = [7; 5];
        let mut starts = [7; 5];
        let mut tables = TablesMut {
            corners: &mut corners,
            friends: &mut friends,
            marks: &mut marks,
            starts: &mut starts,
        };
        let answer = read(text, &mut tables);
        (
            answer,
            Lent {
                corners,
                friends,
                marks,
                starts,
            },
        )
    }

    #[test]
    fn the_pillow(rt: HostRuntime) {
        let (answer, lent) = read_small(PILLOW);
        assert_eq!(rt;
            answer,
            Ok(Counts {
                quads: 2,
                points: 4,
            })
        );
        assert_eq!(rt; lent.corners, [0, 1, 2, 3, 2, 1, 0, 3, 7]);
        assert_eq!(rt; lent.friends, [2, 3, 0, 1, 7]);
        assert_eq!(rt; lent.marks, [0, 0, 0, 0, 7]);
        assert_eq!(rt; lent.starts, [0, 1, 2, 3, 7]);
    }

    #[test]
    fn damaged_texts(rt: HostRuntime) {
        for (text, line) in DAMAGED {
            let (answer, lent) = read_small(text);
            assert_eq!(rt; answer, Err(Fault::BadLine(line)));
            assert_eq!(rt; lent.corners, [7; 9]);
            assert_eq!(rt; lent.friends, [7; 5]);
            assert_eq!(rt; lent.marks, [7; 5]);
            assert_eq!(rt; lent.starts, [7; 5]);
        }
    }

    // Line 0 is tried before the room, and the room before the other lines.
    #[test]
    fn order_of_refusals(rt: HostRuntime) {
        assert_eq!(rt; read_small(b"00 3 4\nrubbish").0, Err(Fault::TooShort));
        assert_eq!(rt; read_small(b"00 2 6\nrubbish").0, Err(Fault::TooShort));
        assert_eq!(rt; read_small(b"00 2 5\nrubbish").0, Err(Fault::BadLine(1)));
        assert_eq!(rt;
            read_small(b"00 ffffff ffffff\n01 0\n").0,
            Err(Fault::TooShort)
        );
        assert_eq!(rt;
            read_small(b"00 ffffff 0ffffff\n01 0\n").0,
            Err(Fault::BadLine(0))
        );
    }

    #[test]
    fn counts_alone(rt: HostRuntime) {
        assert_eq!(rt;
            read_counts(b"00 ffffff 0\nrubbish"),
            Ok(Counts {
                quads: 0xff_ffff,
                points: 0,
            })
        );
        assert_eq!(rt; read_counts(b"00 2 4 4\n"), Err(Fault::BadLine(0)));
    }
}
