// Values of the next level: a row for each old point, each quad and each off-edge.
// Each pass writes the slots of its own kind, and leaves every slot right that was right.
ghost use Rattle.std.specs.Prelude.{◌≡◌, ℕ, ◌+◌, ◌*◌, ◌<◌, map, length, MatchResult};
ghost use Rattle.carried.specs.Blends.{edge as edge_parts, face as face_parts, moved as moved_parts, parts, values as values_of};
ghost use Rattle.mesh.specs.Mesh.{friend as friend_of};
ghost use Rattle.mesh.specs.Refusals.{told};
ghost use Rattle.refinement.specs.Tasks.{edge_slot, face_slot, old_slot};
ghost use Rattle.tables.specs.Lent.{mesh};
ghost use Rattle.carry.specs.Mixes.{blend};
ghost use Rattle.carry.specs.Rows.{made, refusal};
ghost use Rattle.carry.specs.Slots.{RightAt};

use crate::reads::edge;
use crate::rows::{Rows, Sizes};
use crate::valued::Valued;
use kinds::row::Rowed;
use kinds::value::ValueKind;
use mesh::fault::Fault;
use mesh::number::{OffEdge, Point, Quad};
use tables::lawful::LawfulTables;
use tables::slot::{edge_slot, face_slot, old_slot};

impl<'a, 'r, K: ValueKind> Valued<'a, 'r, K> {
    // Writes for each number the row of its value at its slot. Of `self` only the clauses speak, for the level whose rows are right:
    // a bound `Fn(&Self, u32)`, with which the body would pass it on, cannot be stated yet of a type with both an invariant and a kind (a `Bench<'_>` has no kind).
    fn put_each<F: Fn(u32) -> (K, usize)>(&self, out: &mut [K::Row], count: u32, at: F)
        requires callable { (n : ℕ) → n < count → F.pre at n }
        requires due { (n : ℕ) (r : _) → n < count → F.post at n r → (r.1 < length out.old) × (r.0 ≡ blend K.blended (made K.Rowed.verdict self.now.rows.rows.now) (parts (mesh self.now.level.tables) r.1)) }
        ensures kept { (s : ℕ) → RightAt K.Rowed.row K.blended (mesh self.now.level.tables) (made K.Rowed.verdict self.now.rows.rows.now) out.old s → RightAt K.Rowed.row K.blended (mesh self.now.level.tables) (made K.Rowed.verdict self.now.rows.rows.now) out.new s }
        ensures right { (n : ℕ) → n < count → (r : _) × F.post at n r × RightAt K.Rowed.row K.blended (mesh self.now.level.tables) (made K.Rowed.verdict self.now.rows.rows.now) out.new r.1 }
    {
        for n in 0..count {
            let (value, slot) = at(n);
            out[slot] = value.to_row();
        }
    }
}

// Writes the values of the next level of a lawful mesh. It begins as that of corner values does, but each counts its own sizes.
pub(crate) fn carry<'a, K: ValueKind>(
    level: LawfulTables<'a>,
    rows: &[K::Row],
    out: &mut [K::Row],
) -> Result<(), Fault>
    ensures verdict { told result ≡ refusal K.Rowed.verdict (mesh level.entry.tables).quads (mesh level.entry.tables).points ((mesh level.entry.tables).points + 3 * (mesh level.entry.tables).quads) rows.now (length out.old) }
    ensures written { MatchResult result (λ _. out.new ≡ map K.Rowed.row (values_of K.blended (mesh level.entry.tables) (made K.Rowed.verdict rows.now))) (λ _. out.new ≡ out.old) }
{
    let quads = level.tables.quads();
    let points = level.tables.starts.len();
    let rows = Rows::<K>::accepted(
        rows,
        Sizes {
            quads,
            standing: points,
            new: points + 3 * quads,
            room: out.len(),
        },
    )?;
    let valued = Valued { level, rows };
    let quads = quads as u32;
    valued.put_each(
        out,
        points as u32,
        |v|
            requires { v < (mesh valued.level.tables).points }
            ensures value { result.0 ≡ blend K.blended (made K.Rowed.verdict valued.entry.rows.rows.now) (moved_parts (mesh valued.entry.level.tables) v) }
            ensures slot { (mesh valued.entry.level.tables).quads ≡ quads → result.1 ≡ old_slot (mesh valued.entry.level.tables) v }
        { (valued.moved(Point(v)), old_slot(quads, Point(v))) },
    );
    valued.put_each(
        out,
        quads,
        |q|
            requires { q < (mesh valued.level.tables).quads }
            ensures value { result.0 ≡ blend K.blended (made K.Rowed.verdict valued.entry.rows.rows.now) (face_parts (mesh valued.entry.level.tables) q) }
            ensures slot { result.1 ≡ face_slot q }
        { (valued.face(Quad(q)), face_slot(Quad(q))) },
    );
    valued.put_each(
        out,
        2 * quads,
        |o|
            requires { o < 2 * (mesh valued.level.tables).quads }
            ensures value { result.0 ≡ blend K.blended (made K.Rowed.verdict valued.entry.rows.rows.now) (edge_parts (mesh valued.entry.level.tables) o) }
            ensures slot { result.1 ≡ edge_slot (friend_of (mesh valued.entry.level.tables) o) }
        {
            let friend = edge(&valued.level, OffEdge(o)).friend;
            (valued.edge(OffEdge(o)), edge_slot(friend))
        },
    );
    Ok(())
}
