// A bench on the pillow: the words that it needs, its refusals with their places, and tasks in any order; four levels; and large meshes.
#![tactic(auto)]

#[cfg(test)]
mod large;
#[cfg(test)]
mod levels;
#[cfg(test)]
mod meshes;
#[cfg(test)]
mod slips;
#[cfg(test)]
mod values;

#[cfg(test)]
mod tests {
    use bench::bench::Bench;
    use bench::level::Level;
    use mesh::number::{Point, Quad};
    use questions::Questions;
    use requests::perform::work;
    use requests::request::{Answer, Request};
    use tables::lent::Tables;

    // Two quads back to back.
    const PILLOW: Request<'static> = Request::Load(Tables {
        corners: &[0, 1, 2, 3, 2, 1, 0, 3],
        friends: &[2, 3, 0, 1],
        marks: &[0; 4],
        starts: &[0, 1, 2, 3],
    });

    // An answer as numbers: the refusal and its place, or 0 and the tasks left, 99 for a call that is done, 98 for none.
    fn shown(answer: Answer) -> (u8, u32) {
        match answer {
            Answer::Nothing => (0, 98),
            Answer::Done => (0, 99),
            Answer::Left(left) => (0, left),
            Answer::Refused(fault) => (fault.number(), fault.place()),
        }
    }

    #[test]
    fn the_pillow_needs_20_words(rt: HostRuntime) {
        let mut answers = [Answer::Nothing; 1];
        let mut few = [0; 19];
        let mut bench = Bench::new(&mut few, 7);
        work(&mut bench, &[PILLOW], &mut answers);
        assert_eq!(rt; shown(answers[0]), (14, 0));
        let mut enough = [0; 20];
        let mut bench = Bench::new(&mut enough, 7);
        work(&mut bench, &[PILLOW], &mut answers);
        assert_eq!(rt; shown(answers[0]), (0, 99));
        assert_eq!(rt; bench.counts(Level::Standing).unwrap_or((0, 0)), (2, 4));
    }

    #[test]
    fn a_begin_needs_100_words(rt: HostRuntime) {
        let mut answers = [Answer::Nothing; 2];
        let mut few = [0; 99];
        let mut bench = Bench::new(&mut few, 7);
        work(&mut bench, &[PILLOW, Request::Begin], &mut answers);
        assert_eq!(rt; shown(answers[1]), (14, 0));
        let mut enough = [0; 100];
        let mut bench = Bench::new(&mut enough, 7);
        work(&mut bench, &[PILLOW, Request::Begin], &mut answers);
        assert_eq!(rt; shown(answers[1]), (0, 99));
    }

    #[test]
    fn refusals_have_places(rt: HostRuntime) {
        let mut answers = [Answer::Nothing; 12];
        let mut words = [0; 100];
        let mut bench = Bench::new(&mut words, 7);
        let requests = [
            Request::Begin,
            Request::RunQuad(Quad(0)),
            PILLOW,
            Request::RunPoint(Point(0)),
            Request::Finish,
            Request::Begin,
            PILLOW,
            Request::RunQuad(Quad(2)),
            Request::RunPoint(Point(4)),
            Request::RunQuad(Quad(0)),
            Request::Finish,
            Request::Withdraw,
        ];
        work(&mut bench, &requests, &mut answers);
        assert_eq!(rt; shown(answers[0]), (12, 0));
        assert_eq!(rt; shown(answers[1]), (12, 0));
        assert_eq!(rt; shown(answers[3]), (15, 0));
        assert_eq!(rt; shown(answers[4]), (0, 98));
        assert_eq!(rt; shown(answers[6]), (11, 0));
        assert_eq!(rt; shown(answers[7]), (16, 2));
        assert_eq!(rt; shown(answers[8]), (16, 4));
        assert_eq!(rt; shown(answers[9]), (0, 5));
        assert_eq!(rt; shown(answers[10]), (18, 1));
        assert_eq!(rt; shown(answers[11]), (0, 99));
    }

    // The words that these requests leave of 100.
    fn left_by(requests: &[Request<'_>]) -> [u32; 100] {
        let mut answers = [Answer::Nothing; 12];
        let mut words = [0; 100];
        let mut bench = Bench::new(&mut words, 7);
        work(&mut bench, requests, &mut answers);
        words
    }

    #[test]
    fn tasks_run_in_any_order(rt: HostRuntime) {
        let forward = left_by(&[
            PILLOW,
            Request::Begin,
            Request::RunQuad(Quad(0)),
            Request::RunQuad(Quad(1)),
            Request::RunPoint(Point(0)),
            Request::RunPoint(Point(1)),
            Request::RunPoint(Point(2)),
            Request::RunPoint(Point(3)),
            Request::Finish,
        ]);
        let back = left_by(&[
            PILLOW,
            Request::Begin,
            Request::RunPoint(Point(3)),
            Request::RunPoint(Point(2)),
            Request::RunQuad(Quad(1)),
            Request::RunPoint(Point(3)),
            Request::RunPoint(Point(1)),
            Request::RunPoint(Point(0)),
            Request::RunQuad(Quad(0)),
            Request::RunQuad(Quad(1)),
            Request::Finish,
        ]);
        // 8 quads and 14 points have 78 words
        for (a, b) in forward.iter().zip(back.iter()).take(78) {
            assert_eq!(rt; *a, *b);
        }
        assert_eq!(rt;
            (forward[0], forward[1], forward[2], forward[3]),
            (0, 2, 1, 7)
        );
    }
}
