// Corner values of the next level: quad by quad, four rows to sixteen.
// Here and in the other calls rows are read and `out` is written, and a call has just one of each, so a struct of the two is no plainer.
ghost use Rattle.std.specs.Prelude.{◌≡◌, ℕ, ◌+◌, ◌*◌, ◌<◌, ◌≤◌, map, length, MatchResult, slice_set};
ghost use Rattle.mesh.specs.Refusals.{told};
ghost use Rattle.carried.specs.Corners.{corners};
ghost use Rattle.tables.specs.Lent.{mesh};
ghost use Rattle.carry.specs.Corners.{Upto};
ghost use Rattle.carry.specs.Rows.{made, refusal};

use crate::rows::{Rows, Sizes};
use kinds::corner::CornerKind;
use kinds::row::Rowed;
use mesh::fault::Fault;
use tables::lawful::LawfulTables;

// Writes the four rows of a new quad, from its first corner on.
fn put<C: CornerKind>(out: &mut [C::Row], first: usize, a: &C, b: &C, c: &C, d: &C)
    requires { first + 4 ≤ length out.old }
    ensures { out.new ≡ slice_set (slice_set (slice_set (slice_set out.old first (C.Rowed.row a.now)) (first + 1) (C.Rowed.row b.now)) (first + 2) (C.Rowed.row c.now)) (first + 3) (C.Rowed.row d.now) }
{
    // tried as a copy_from_slice of an array of the four: its proof did not close by itself
    out[first] = a.to_row();
    out[first + 1] = b.to_row();
    out[first + 2] = c.to_row();
    out[first + 3] = d.to_row();
}

// Writes the rows of the four new quads of quad q, whose rows before are right.
fn put_quad<'r, C: CornerKind>(rows: &Rows<'r, C>, q: usize, out: &mut [C::Row])
    requires within { 4 * q + 4 ≤ length rows.now.rows.now }
    requires room { 16 * q + 16 ≤ length out.old }
    ensures { (n : ℕ) → length rows.now.rows.now ≡ 4 * n → Upto C.Rowed.row (corners C.middle (made C.Rowed.verdict rows.now.rows.now)) out.old (16 * q) → Upto C.Rowed.row (corners C.middle (made C.Rowed.verdict rows.now.rows.now)) out.new (16 * q + 16) }
{
    // the corners of a quad are four, each with a name of its own below
    let a = rows.value(4 * q);
    let b = rows.value(4 * q + 1);
    let c = rows.value(4 * q + 2);
    let d = rows.value(4 * q + 3);
    let ab = a.midway(&b);
    let bc = b.midway(&c);
    let cd = c.midway(&d);
    let da = d.midway(&a);
    let centre = ab.midway(&cd);
    put(out, 16 * q, &a, &ab, &centre, &da);
    put(out, 16 * q + 4, &b, &bc, &centre, &ab);
    put(out, 16 * q + 8, &c, &cd, &centre, &bc);
    put(out, 16 * q + 12, &d, &da, &centre, &cd);
}

// Writes the corner values of the next level of a lawful mesh.
pub(crate) fn carry<'a, C: CornerKind>(
    level: LawfulTables<'a>,
    rows: &[C::Row],
    out: &mut [C::Row],
) -> Result<(), Fault>
    ensures verdict { told result ≡ refusal C.Rowed.verdict (mesh level.entry.tables).quads (4 * (mesh level.entry.tables).quads) (16 * (mesh level.entry.tables).quads) rows.now (length out.old) }
    ensures written { MatchResult result (λ _. out.new ≡ map C.Rowed.row (corners C.middle (made C.Rowed.verdict rows.now))) (λ _. out.new ≡ out.old) }
{
    let quads = level.tables.quads();
    let rows = Rows::<C>::accepted(
        rows,
        Sizes {
            quads,
            standing: 4 * quads,
            new: 16 * quads,
            room: out.len(),
        },
    )?;
    // by number: after a loop over chunks of `out`, which was tried, a proof knows nothing of what they hold
    for q in 0..quads {
        put_quad(&rows, q, out);
    }
    Ok(())
}
