// The weight that a running mix has taken.
ghost use Rattle.std.specs.Prelude.{◌≡◌, ◌+◌, ◌<◌, ◌≤◌, MatchOption};
ghost use Rattle.kinds.specs.Parts.{most_weight};

// The greatest weight of a blend.
pub const MOST_WEIGHT: u32 = 268_435_456;

#[derive(Clone, Copy)]
pub struct Weight {
    pub taken: u32,
    pub ghost few: { taken ≤ most_weight },
}

impl Weight {
    // With so much more; None where that would be too much for a blend.
    pub fn checked_add(self, weight: u32) -> Option<Weight>
        ensures { MatchOption result (most_weight < self.taken + weight) (λ it. it.taken ≡ self.taken + weight) }
    {
        if weight > MOST_WEIGHT - self.taken {
            return None;
        }
        Some(Weight {
            taken: self.taken + weight,
        })
    }
}
