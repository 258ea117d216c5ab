// Reading a mesh text into lent tables: every line is judged before a table is filled, so that a refusal leaves all as it was.
ghost use Rattle.std.specs.Prelude.{◌≡◌, ℕ, ◌+◌, ◌<◌, ◌≤◌, List, [], ◌∷◌, IfSome, Some, None, MatchOption, MatchResult};
ghost use Rattle.mesh.specs.Mesh.{Mesh};
ghost use Rattle.mesh.specs.declared.fault.Fault.TheVariants.{BadLine};
ghost use Rattle.lines.specs.Kinds.{first_digit, second_digit};
ghost use Rattle.lines.specs.Laws.{ReadingIsExact};
ghost use Rattle.lines.specs.Lent.{Same, lent_room, HoldsIn, ImagesIn};
ghost use Rattle.lines.specs.Reading.{line, lines, good, bad, accepted, refused, body_read, reading, answer, heading};

use crate::frame::read_line;
use crate::kind::Kind;
use crate::lent::TablesMut;
use mesh::fault::Fault;

// How many quads and points a mesh has.
#[derive(Clone, Copy, PartialEq, Eq, Debug)]
pub struct Counts {
    pub quads: u32,
    pub points: u32,
}

// The counts that line 0 states, and the bytes after it.
fn head(text: &[u8]) -> Option<(Counts, &[u8])>
    ensures found { MatchOption result (line 48 48 2 text.now ≡ None) (λ p. line 48 48 2 text.now ≡ Some (p.0.quads ∷ (p.0.points ∷ []), p.1.now)) }
    ensures small { IfSome result (λ p. (p.0.quads < 16777216) × (p.0.points < 16777216)) }
{
    let mut words = [0u32; 2];
    let rest = read_line(text, Kind::Counts, &mut words)?;
    let [quads, points] = words;
    Some((Counts { quads, points }, rest))
}

// The counts that line 0 states; the lines after it are not looked at.
pub fn read_counts(text: &[u8]) -> Result<Counts, Fault>
    ensures { result ≡ heading text.now }
{
    let (counts, _) = head(text).ok_or(Fault::BadLine(0))?;
    Ok(counts)
}

// Judges `count` lines of one kind and so many words, of which the first is line `first` of the text; the bytes after them, or the first line that is not right.
fn judge_lines<const WORDS: usize>(
    text: &[u8],
    kind: Kind,
    count: u32,
    first: u32,
) -> Result<&[u8], Fault>
    requires few { WORDS ≤ 8 }
    requires fits { first + count < 4294967296 }
    ensures { MatchResult result (λ rest. (rows : List (List ℕ)) × (lines (first_digit kind) (second_digit kind) WORDS count text.now ≡ good rows rest.now)) (λ f. (i : ℕ) × (f ≡ BadLine (first + i)) × (lines (first_digit kind) (second_digit kind) WORDS count text.now ≡ bad i)) }
{
    let mut row = [0u32; WORDS];
    let mut rest = text;
    for line in first..first + count {
        rest = read_line(rest, kind, &mut row).ok_or(Fault::BadLine(line))?;
    }
    Ok(rest)
}

// Judges the lines after line 0: one for each quad, one for each point, and nothing more.
fn judge(body: &[u8], counts: Counts) -> Result<(), Fault>
    requires quads { counts.quads < 16777216 }
    requires points { counts.points < 16777216 }
    ensures { MatchResult result (λ _. (m : Mesh) × (body_read counts.quads counts.points body.now ≡ accepted m)) (λ f. body_read counts.quads counts.points body.now ≡ refused f) }
{
    let starts = judge_lines::<8>(body, Kind::Quad, counts.quads, 1)?;
    let rest = judge_lines::<1>(starts, Kind::Start, counts.points, 1 + counts.quads)?;
    if !rest.is_empty() {
        return Err(Fault::BadLine(1 + counts.quads + counts.points));
    }
    Ok(())
}

// Reads a mesh text: the counts, and its words in the front of the lent tables, which keep every word past them.
// Line 0 is tried first, then whether the tables are long enough, then the other lines.
pub fn read(text: &[u8], tables: &mut TablesMut<'_>) -> Result<Counts, Fault>
    ensures same { Same tables.old tables.new }
    ensures answer { result ≡ answer (reading text.now (lent_room tables.old)) }
    ensures tables { HoldsIn (reading text.now (lent_room tables.old)) tables.old tables.new }
    ensures images { ImagesIn text.now tables.old tables.new result }
{
    let (counts, body) = head(text).ok_or(Fault::BadLine(0))?;
    if !tables.has_room(counts) {
        return Err(Fault::TooShort);
    }
    judge(body, counts)?;
    // every line was judged
    tables.fill(body, counts).unwrap();
    Ok(counts)
}

// Reading gives an outcome exactly where the text is as that outcome tells.
pub fn reading_is_exact()
    ensures { ReadingIsExact }
{}
