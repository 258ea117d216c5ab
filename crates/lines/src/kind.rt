// The kinds of lines that a text or a frame has.
ghost use Rattle.std.specs.Prelude.{◌≡◌, [], ◌∷◌};
ghost use Rattle.lines.specs.Kinds.{first_digit, second_digit};

#[derive(Clone, Copy, PartialEq, Eq, Debug)]
pub enum Kind {
    Counts,
    Quad,
    Start,
    Refusal,
}

impl Kind {
    // The two digits that a line of this kind begins with.
    pub fn digits(self) -> [u8; 2]
        ensures { result ≡ first_digit self ∷ (second_digit self ∷ []) }
    {
        match self {
            Kind::Counts => [b'0', b'0'],
            Kind::Quad => [b'0', b'1'],
            Kind::Start => [b'0', b'2'],
            Kind::Refusal => [b'f', b'f'],
        }
    }
}
