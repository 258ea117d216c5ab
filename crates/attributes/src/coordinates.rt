// Where a point of the mesh lies, in tenths of a micrometre.
// The types stand apart from the functions on them: a file of specs/ that names a type with a ghost field
// cannot be imported where the type is declared.
ghost use Rattle.std.specs.Prelude.{◌*◌, ◌≤◌, unsigned_abs};
ghost use Rattle.attributes.specs.Limit.{Limited, farthest};

pub mod blend;

use kinds::weight::Weight;

// None can exist that is past 16,777,216 either way.
#[derive(Clone, Copy, PartialEq, Eq, Debug)]
pub struct Coordinates {
    x: i32,
    y: i32,
    z: i32,
    ghost xok: { Limited x },
    ghost yok: { Limited y },
    ghost zok: { Limited z },
}

// The weighted sums of the parts so far, which stay inside 64 bits, and their weight.
#[derive(Drop)]
pub struct CoordinatesMix {
    x: i64,
    y: i64,
    z: i64,
    weight: Weight,
    ghost xok: { unsigned_abs x ≤ farthest * weight.taken },
    ghost yok: { unsigned_abs y ≤ farthest * weight.taken },
    ghost zok: { unsigned_abs z ≤ farthest * weight.taken },
}
