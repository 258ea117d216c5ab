// Calls for a program in Rust or C that compares the built code with an implementation of its own, or times it.
// The C interface has the four tables as slices apart, answers in numbers, and has no type parameters: one call for each kind.
#![tactic(auto)]

ghost use Rattle.attributes.specs.Colours.{middle_of as colour_middle, row_of as colour_row, verdict_of as colour_verdict};
ghost use Rattle.attributes.specs.Coordinates.{blend_of, row_of as coordinates_row, verdict_of as coordinates_verdict};
ghost use Rattle.attributes.specs.Influences.{row_of as influence_row, union, verdict_of as influence_verdict};
ghost use Rattle.attributes.specs.Textures.{middle_of as texture_middle, row_of as texture_row, verdict_of as texture_verdict};
ghost use Rattle.carried.specs.Blends.{values as values_of};
ghost use Rattle.carried.specs.Corners.{corners as corners_of};
ghost use Rattle.carry.specs.Rows.{corners_refusal, made as values_made, values_refusal};
ghost use Rattle.chain.specs.Calls.{made};
ghost use Rattle.exported.specs.Answers.{Becomes, found_of, refusal_of};
ghost use Rattle.exported.specs.Benches.{copied, found_at, refine_standing, refine_verdict, write_verdict, written_of};
ghost use Rattle.lines.specs.Reading.{Holds, answer, heading, reading, room};
ghost use Rattle.lines.specs.Text.{mesh_text};
ghost use Rattle.mesh.specs.Causes.{judge, mesh_of};
ghost use Rattle.std.specs.Prelude.{◌≡◌, ◌++◌, drop, length, map};

use attributes::colour::Colour;
use attributes::coordinates::Coordinates;
use attributes::influence::Influence;
use attributes::texture::Texture;
use bench::bench::Bench;
use carry::lent;
use exported::benches::{copy_standing, load_and_refine, load_and_write};
use exported::{Found, Refusal, Written};
use lines::{TablesMut, read, read_counts};
use tables::lent::Tables;

// Reads a text into four lent tables.
#[unsafe(no_mangle)]
pub extern "C" fn mesh_read(
    text: &[u8],
    corners: &mut [u32],
    friends: &mut [u32],
    marks: &mut [u32],
    starts: &mut [u32],
) -> Found
    ensures answer { result ≡ found_of (answer (reading text.now (room corners.old friends.old marks.old starts.old))) }
    ensures tables { Holds (reading text.now (room corners.old friends.old marks.old starts.old)) corners.old friends.old marks.old starts.old corners.new friends.new marks.new starts.new }
{
    let mut tables = TablesMut {
        corners,
        friends,
        marks,
        starts,
    };
    Found::from(read(text, &mut tables))
}

// Reads line 0 of a text.
#[unsafe(no_mangle)]
pub extern "C" fn mesh_read_counts(text: &[u8]) -> Found
    ensures { result ≡ found_of (heading text.now) }
{
    Found::from(read_counts(text))
}

// Judges whether four tables are a lawful mesh.
#[unsafe(no_mangle)]
pub extern "C" fn mesh_judge(
    corners: &[u32],
    friends: &[u32],
    marks: &[u32],
    starts: &[u32],
) -> Refusal
    ensures { result ≡ refusal_of (judge (mesh_of corners.now friends.now marks.now starts.now)) }
{
    let tables = Tables {
        corners,
        friends,
        marks,
        starts,
    };
    Refusal::from(tables.judge())
}

// Loads a bench over these words from four tables, refines it so many times or until a refinement is refused, and copies what stands then to `out`.
#[unsafe(no_mangle)]
pub extern "C" fn mesh_refine(
    words: &mut [u32],
    mark: u32,
    corners: &[u32],
    friends: &[u32],
    marks: &[u32],
    starts: &[u32],
    levels: u32,
    out: &mut [u32],
) -> Found
    ensures answer { result ≡ found_at (refine_verdict (length words.old) mark (mesh_of corners.now friends.now marks.now starts.now) levels) (refine_standing (length words.old) mark (mesh_of corners.now friends.now marks.now starts.now) levels) }
    ensures level { out.new ≡ copied (refine_standing (length words.old) mark (mesh_of corners.now friends.now marks.now starts.now) levels) out.old }
{
    let tables = Tables {
        corners,
        friends,
        marks,
        starts,
    };
    let mut bench = Bench::new(words, mark);
    let answer = load_and_refine(&mut bench, &tables, levels);
    copy_standing(&bench, out);
    Found::standing(answer, &bench)
}

// Loads a bench over these words from four tables, and writes its text to the front of `out`.
#[unsafe(no_mangle)]
pub extern "C" fn mesh_write(
    words: &mut [u32],
    mark: u32,
    corners: &[u32],
    friends: &[u32],
    marks: &[u32],
    starts: &[u32],
    out: &mut [u8],
) -> Written
    ensures answer { result ≡ written_of (write_verdict (made (length words.old) mark) (mesh_of corners.now friends.now marks.now starts.now) (length out.old)) (length (mesh_text (mesh_of corners.now friends.now marks.now starts.now))) }
    ensures text { Becomes (write_verdict (made (length words.old) mark) (mesh_of corners.now friends.now marks.now starts.now) (length out.old)) out.old (mesh_text (mesh_of corners.now friends.now marks.now starts.now) ++ drop (length (mesh_text (mesh_of corners.now friends.now marks.now starts.now))) out.old) out.new }
{
    let tables = Tables {
        corners,
        friends,
        marks,
        starts,
    };
    let mut bench = Bench::new(words, mark);
    Written::from(load_and_write(&mut bench, &tables, out))
}

// Coordinates on points.
#[unsafe(no_mangle)]
pub extern "C" fn mesh_values_coordinates(
    corners: &[u32],
    friends: &[u32],
    marks: &[u32],
    starts: &[u32],
    rows: &[[i32; 3]],
    out: &mut [[i32; 3]],
) -> Refusal
    ensures answer { result ≡ refusal_of (values_refusal coordinates_verdict (mesh_of corners.now friends.now marks.now starts.now) rows.now (length out.old)) }
    ensures written { Becomes (values_refusal coordinates_verdict (mesh_of corners.now friends.now marks.now starts.now) rows.now (length out.old)) out.old (map coordinates_row (values_of blend_of (mesh_of corners.now friends.now marks.now starts.now) (values_made coordinates_verdict rows.now))) out.new }
{
    let tables = Tables {
        corners,
        friends,
        marks,
        starts,
    };
    Refusal::from(lent::values::<Coordinates>(&tables, rows, out))
}

// Influences on points.
#[unsafe(no_mangle)]
pub extern "C" fn mesh_values_influences(
    corners: &[u32],
    friends: &[u32],
    marks: &[u32],
    starts: &[u32],
    rows: &[u64],
    out: &mut [u64],
) -> Refusal
    ensures answer { result ≡ refusal_of (values_refusal influence_verdict (mesh_of corners.now friends.now marks.now starts.now) rows.now (length out.old)) }
    ensures written { Becomes (values_refusal influence_verdict (mesh_of corners.now friends.now marks.now starts.now) rows.now (length out.old)) out.old (map influence_row (values_of union (mesh_of corners.now friends.now marks.now starts.now) (values_made influence_verdict rows.now))) out.new }
{
    let tables = Tables {
        corners,
        friends,
        marks,
        starts,
    };
    Refusal::from(lent::values::<Influence>(&tables, rows, out))
}

// Texture pairs on corners.
#[unsafe(no_mangle)]
pub extern "C" fn mesh_corners_textures(
    corners: &[u32],
    friends: &[u32],
    marks: &[u32],
    starts: &[u32],
    rows: &[[f32; 2]],
    out: &mut [[f32; 2]],
) -> Refusal
    ensures answer { result ≡ refusal_of (corners_refusal texture_verdict (mesh_of corners.now friends.now marks.now starts.now) rows.now (length out.old)) }
    ensures written { Becomes (corners_refusal texture_verdict (mesh_of corners.now friends.now marks.now starts.now) rows.now (length out.old)) out.old (map texture_row (corners_of texture_middle (values_made texture_verdict rows.now))) out.new }
{
    let tables = Tables {
        corners,
        friends,
        marks,
        starts,
    };
    Refusal::from(lent::corners::<Texture>(&tables, rows, out))
}

// Colours on corners.
#[unsafe(no_mangle)]
pub extern "C" fn mesh_corners_colours(
    corners: &[u32],
    friends: &[u32],
    marks: &[u32],
    starts: &[u32],
    rows: &[[u8; 3]],
    out: &mut [[u8; 3]],
) -> Refusal
    ensures answer { result ≡ refusal_of (corners_refusal colour_verdict (mesh_of corners.now friends.now marks.now starts.now) rows.now (length out.old)) }
    ensures written { Becomes (corners_refusal colour_verdict (mesh_of corners.now friends.now marks.now starts.now) rows.now (length out.old)) out.old (map colour_row (corners_of colour_middle (values_made colour_verdict rows.now))) out.new }
{
    let tables = Tables {
        corners,
        friends,
        marks,
        starts,
    };
    Refusal::from(lent::corners::<Colour>(&tables, rows, out))
}
