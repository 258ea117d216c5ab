// What a walk has met.
ghost use Rattle.std.specs.Prelude.{◌*◌, ◌≤◌};
ghost use Rattle.std.specs.Option.{ForSome};

#[derive(Drop)]
pub(crate) struct Around {
    // the corners met
    pub(crate) valence: u32,
    // those of them whose off-edge is marked
    pub(crate) marked: u32,
    // the sum of the marks; none if one is infinite
    pub(crate) sum: Option<u32>,
    ghost few: { ForSome sum (λ n. n ≤ 4096 * marked) },
}
