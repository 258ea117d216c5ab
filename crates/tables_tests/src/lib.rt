// Lent tables on examples: the pillow, and tables with one word or one length changed for each cause to decline them.
#![tactic(auto)]

#[cfg(test)]
mod tests {
    use mesh::mark::Mark;
    use mesh::number::{Corner, Edge, OffEdge, Point};
    use tables::edge::EdgeRecord;
    use tables::lent::Tables;

    // Two quads back to back.
    const CORNERS: [u32; 8] = [0, 1, 2, 3, 2, 1, 0, 3];

    const FRIENDS: [u32; 4] = [2, 3, 0, 1];

    const MARKS: [u32; 4] = [0, 0, 0, 0];

    const STARTS: [u32; 4] = [0, 1, 2, 3];

    // Two pillows on the same four points.
    const TWO_CORNERS: [u32; 16] = [0, 1, 2, 3, 2, 1, 0, 3, 0, 1, 2, 3, 2, 1, 0, 3];

    // The number and the place of the refusal; 0 and 0 where the tables are a lawful mesh.
    fn judged<'a>(
        corners: &'a [u32],
        friends: &'a [u32],
        marks: &'a [u32],
        starts: &'a [u32],
    ) -> (u8, u32) {
        let tables = Tables {
            corners,
            friends,
            marks,
            starts,
        };
        match tables.judge() {
            Ok(()) => (0, 0),
            Err(fault) => (fault.number(), fault.place()),
        }
    }

    #[test]
    fn the_pillow_is_lawful(rt: HostRuntime) {
        assert_eq!(rt; judged(&CORNERS, &FRIENDS, &MARKS, &STARTS), (0, 0));
        assert_eq!(rt;
            judged(&CORNERS, &FRIENDS, &[4096, 0, 65535, 1], &STARTS),
            (0, 0)
        );
    }

    #[test]
    fn lengths_must_go_together(rt: HostRuntime) {
        assert_eq!(rt;
            judged(&[0, 1, 2, 3, 2, 1, 0], &FRIENDS, &MARKS, &STARTS),
            (1, 0)
        );
        assert_eq!(rt; judged(&CORNERS, &[2, 3, 0], &MARKS, &STARTS), (1, 0));
        assert_eq!(rt; judged(&CORNERS, &FRIENDS, &[0; 5], &STARTS), (1, 0));
    }

    #[test]
    fn counts_have_limits(rt: HostRuntime) {
        assert_eq!(rt; judged(&[], &[], &[], &[]), (2, 0));
        assert_eq!(rt; judged(&[0, 1, 2, 3], &[0, 1], &[0, 0], &STARTS), (2, 0));
        assert_eq!(rt; judged(&CORNERS, &FRIENDS, &MARKS, &[0]), (3, 0));
        assert_eq!(rt;
            judged(&CORNERS, &FRIENDS, &MARKS, &[0, 1, 2, 3, 3]),
            (3, 0)
        );
    }

    #[test]
    fn words_must_name_something(rt: HostRuntime) {
        assert_eq!(rt;
            judged(&[0, 1, 2, 3, 2, 4, 0, 4], &FRIENDS, &MARKS, &STARTS),
            (4, 5)
        );
        assert_eq!(rt; judged(&CORNERS, &[2, 4, 0, 1], &MARKS, &STARTS), (5, 1));
        assert_eq!(rt;
            judged(&CORNERS, &FRIENDS, &[0, 0, 4097, 0], &STARTS),
            (6, 2)
        );
        assert_eq!(rt;
            judged(&CORNERS, &FRIENDS, &[0, 0, 0, 65536], &STARTS),
            (6, 3)
        );
    }

    // An earlier cause at a later place comes first.
    #[test]
    fn causes_come_in_order(rt: HostRuntime) {
        assert_eq!(rt;
            judged(&CORNERS, &[2, 3, 0, 4], &[5000, 0, 0, 0], &STARTS),
            (5, 3)
        );
        assert_eq!(rt;
            judged(&[4, 1, 2, 3, 2, 1, 0, 3], &FRIENDS, &MARKS, &[0]),
            (3, 0)
        );
    }

    #[test]
    fn friends_must_run_the_other_way(rt: HostRuntime) {
        assert_eq!(rt; judged(&CORNERS, &[3, 3, 0, 1], &MARKS, &STARTS), (7, 0));
        assert_eq!(rt; judged(&CORNERS, &[2, 3, 0, 0], &MARKS, &STARTS), (7, 3));
    }

    #[test]
    fn starts_must_be_at_their_points(rt: HostRuntime) {
        assert_eq!(rt; judged(&CORNERS, &FRIENDS, &MARKS, &[0, 1, 8, 3]), (8, 2));
        assert_eq!(rt; judged(&CORNERS, &FRIENDS, &MARKS, &[0, 1, 2, 0]), (8, 3));
    }

    // From corner 0 the steps go to corners 14 and 8, and between those for ever.
    #[test]
    fn walks_must_come_back(rt: HostRuntime) {
        assert_eq!(rt;
            judged(&TWO_CORNERS, &[2, 7, 0, 1, 6, 7, 4, 5], &[0; 8], &STARTS),
            (9, 0)
        );
    }

    // At point 1 the first step is back.
    #[test]
    fn walks_must_have_two_steps(rt: HostRuntime) {
        assert_eq!(rt;
            judged(&[0, 1, 0, 2, 0, 1, 0, 2], &[0, 1, 2, 3], &MARKS, &[0, 1, 3]),
            (9, 1)
        );
    }

    #[test]
    fn walks_must_meet_every_corner(rt: HostRuntime) {
        assert_eq!(rt;
            judged(&TWO_CORNERS, &[2, 3, 0, 1, 6, 7, 4, 5], &[0; 8], &STARTS),
            (10, 0)
        );
    }

    #[test]
    fn an_edge_has_a_record(rt: HostRuntime) {
        let tables = Tables {
            corners: &CORNERS,
            friends: &FRIENDS,
            marks: &[0, 65535, 4097, 0],
            starts: &STARTS,
        };
        let record = EdgeRecord {
            begin: Point(3),
            end: Point(0),
            friend: Edge(3),
            mark: Mark::Infinite,
        };
        assert_eq!(rt; tables.edge(OffEdge(1)), Some(record));
        assert_eq!(rt; tables.edge(OffEdge(2)), None);
        assert_eq!(rt; tables.edge(OffEdge(4)), None);
        assert_eq!(rt; tables.step(Corner(0)), Some(Corner(6)));
        assert_eq!(rt; tables.step(Corner(1)), Some(Corner(5)));
        assert_eq!(rt; tables.step(Corner(8)), None);
    }
}
