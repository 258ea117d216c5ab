// How a weighted sum is divided by its weight.
ghost use Rattle.std.specs.Prelude.{◌≡◌, ◌*◌, ◌<◌, ◌≤◌, pos, unsigned_abs};
ghost use Rattle.std.specs.Int.{int_div_euclid};
ghost use Rattle.kinds.specs.Parts.{most_weight};
ghost use Rattle.attributes.specs.Limit.{Limited, farthest};
ghost use Rattle.attributes.specs.Nearest.{RoundedOnce, nearest};

// The weights of every face point, of every edge point, and of a smooth point of valence 4.
const FACE: u32 = 4;

const EDGE: u32 = 4096;

const REGULAR: u32 = 64;

// The floor of a number over twice a weight. The weights that nearly all blends have are constants here, so that they divide by shifts.
fn floor_over(top: i64, over: u32) -> i64
    requires { 0 < over }
    ensures { result ≡ int_div_euclid top (pos (2 * over)) }
{
    match over {
        FACE => top.div_euclid(8),
        EDGE => top.div_euclid(8192),
        REGULAR => top.div_euclid(128),
        _ => top.div_euclid(2 * i64::from(over)),
    }
}

// A sum over its weight, rounded once to the nearest whole number, a half to the greater. Nothing over nothing is 0.
pub(crate) fn rounded(sum: i64, over: u32) -> i32
    requires few { over ≤ most_weight }
    requires small { unsigned_abs sum ≤ farthest * over }
    ensures is { result ≡ nearest sum over }
    ensures limited { Limited result }
{
    if over == 0 {
        return 0;
    }
    floor_over(2 * sum + i64::from(over), over) as i32
}

// The rounded quotient is nearest, no other number is as near, and it keeps the bounds of the sum.
pub fn rounded_once()
    ensures { RoundedOnce }
{}
