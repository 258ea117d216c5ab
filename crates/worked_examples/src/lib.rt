// Worked examples of the results that are defined, in one list.
#![tactic(auto)]

ghost use Rattle.worked_examples.specs.Examples.{WorkedExamples};

// What refinement, values and refusals give at numbers worked out by hand.
pub fn worked_examples()
    ensures { WorkedExamples }
{}

// What the definitions give, run through the calls: where no other test has these numbers.
#[cfg(test)]
mod tests {
    use attributes::coordinates::Coordinates;
    use bench::bench::Bench;
    use bench::level::Level;
    use carry::standing::values;
    use kinds::row::Rowed;
    use mesh::fault::Fault;
    use mesh::number::OffEdge;
    use questions::Questions;
    use refining::once::refine_once;
    use tables::lent::Tables;

    // The pillow with these marks.
    fn pillow<'a>(marks: &'a [u32]) -> Tables<'a> {
        Tables {
            corners: &[0, 1, 2, 3, 2, 1, 0, 3],
            friends: &[2, 3, 0, 1],
            marks,
            starts: &[0, 1, 2, 3],
        }
    }

    // The number and the place of a refusal; 0 and 0 where there is none.
    fn told(res: Result<(), Fault>) -> (u8, u32) {
        match res {
            Ok(()) => (0, 0),
            Err(fault) => (fault.number(), fault.place()),
        }
    }

    // The word of the mark of a standing off-edge; 1 where there is none.
    fn mark_at(bench: &Bench<'_>, off: u32) -> u32 {
        match bench.off_edge(Level::Standing, OffEdge(off)) {
            Ok((_, _, mark)) => mark.into(),
            Err(_) => 1,
        }
    }

    #[test]
    fn a_mark_falls(rt: HostRuntime) {
        let mut words = [0; 100];
        let mut bench = Bench::new(&mut words, 7);
        assert_eq!(rt; told(bench.load(&pillow(&[0, 0, 300, 0]))), (0, 0));
        assert_eq!(rt; told(refine_once(&mut bench)), (0, 0));
        for off in 0..16 {
            let left = if off == 3 || off == 13 { 44 } else { 0 };
            assert_eq!(rt; mark_at(&bench, off), left);
        }
        assert_eq!(rt; mark_at(&bench, 16), 1);
    }

    #[test]
    fn marks_have_a_limit(rt: HostRuntime) {
        let mut words = [0; 20];
        let mut bench = Bench::new(&mut words, 7);
        for off in 0..4 {
            let mut marks = [0; 4];
            marks[off] = 4096;
            assert_eq!(rt; told(bench.load(&pillow(&marks))), (0, 0));
            marks[off] = 4097;
            assert_eq!(rt; told(bench.load(&pillow(&marks))), (6, off as u32));
        }
        assert_eq!(rt; mark_at(&bench, 3), 4096);
    }

    // Points on the first axis.
    fn on_axis(xs: [i32; 4]) -> [[i32; 3]; 4] {
        let [a, b, c, d] = xs;
        [[a, 0, 0], [b, 0, 0], [c, 0, 0], [d, 0, 0]]
    }

    #[test]
    fn coordinates_over_a_bench(rt: HostRuntime) {
        let mut words = [0; 20];
        let mut bench = Bench::new(&mut words, 7);
        assert_eq!(rt; told(bench.load(&pillow(&[0; 4]))), (0, 0));
        let mut out = [[7; 3]; 10];
        assert_eq!(rt;
            told(values::<Coordinates>(&bench, &on_axis([0, 0, 1, 1]), &mut out)),
            (0, 0)
        );
        assert_eq!(rt; out[1], [1, 0, 0]);
        assert_eq!(rt;
            told(values::<Coordinates>(&bench, &on_axis([0, 0, -1, -1]), &mut out)),
            (0, 0)
        );
        assert_eq!(rt; out[1], [0, 0, 0]);
        assert_eq!(rt;
            told(values::<Coordinates>(&bench, &on_axis([0, 16, 32, 16_777_216]), &mut out)),
            (0, 0)
        );
        assert_eq!(rt;
            told(values::<Coordinates>(&bench, &on_axis([0, 16, 32, 16_777_217]), &mut out)),
            (20, 3)
        );
        // a quarter of the sum of the four that were taken
        assert_eq!(rt; out[1], [4_194_316, 0, 0]);
    }
}
