// Values on points: what a blend of parts is, and in which ranges values lie.
ghost use Rattle.std.specs.Prelude.{◌≡◌, ℕ, ◌+◌, ◌<◌, ◌≤◌, List, [], ◌∷◌, ◌++◌};
ghost use Rattle.kinds.specs.Parts.{Each, most_weight, taken, total};

use crate::row::Rowed;
pub use crate::weight::MOST_WEIGHT;

// A part is a value with a whole weight. The parts of a blend are added one by one to a running mix, so that no code
// holds the list; `holds` says of which list a mix is made.
pub trait ValueKind: Rowed {
    type Mix;

    ghost Range: { Type 0 };

    ghost lies: { Range → Self → Type 0 };

    // A function of the list, so that the list alone fixes the blend.
    ghost blended: { List (Self × ℕ) → Self };

    ghost holds: { Self.Mix → List (Self × ℕ) → Type 0 };

    // The weight that a mix has taken so far.
    ghost weighed: { Self.Mix → ℕ };

    fn start() -> Self::Mix
        ensures none { holds result [] };

    // A part that would be too much leaves the mix as it was.
    fn add(mix: &mut Self::Mix, value: &Self, weight: u32)
        ensures adds { (ps : List (Self × ℕ)) → holds mix.old ps → weighed mix.old + weight ≤ most_weight → holds mix.new (ps ++ ((value.now, weight) ∷ [])) }
        ensures full { most_weight < weighed mix.old + weight → mix.new ≡ mix.old };

    fn finish(mix: Self::Mix) -> Self
        ensures blends { (ps : List (Self × ℕ)) → holds mix ps → result ≡ blended ps };

    // A blend of parts which all lie in a range lies in it.
    ghost keeps: { (b : Range) (ps : List (Self × ℕ)) → 0 < total ps → total ps ≤ most_weight → Each (lies b) ps → lies b (blended ps) };

    ghost weighs: { (m : Self.Mix) (ps : List (Self × ℕ)) → holds m ps → weighed m ≡ total ps };
}

// Adds a part; one of weight 0 is not taken.
pub fn add_part<K: ValueKind>(mix: &mut K::Mix, value: &K, weight: u32)
    ensures adds { (ps : List (K × ℕ)) → K.holds mix.old ps → K.weighed mix.old + weight ≤ most_weight → K.holds mix.new (ps ++ taken ((value.now, weight) ∷ [])) }
    ensures full { most_weight < K.weighed mix.old + weight → mix.new ≡ mix.old }
{
    if weight != 0 {
        K::add(mix, value, weight);
    }
}
