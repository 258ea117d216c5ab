// The lines of a mesh, written into a lent buffer.
ghost use Rattle.std.specs.Prelude.{◌≡◌, ◌*◌, ◌/◌, length};
ghost use Rattle.std.specs.List.{flat_map};
ghost use Rattle.lines.specs.Text.{line_text, quad_rows, start_rows, mesh_text};
ghost use Rattle.tables.specs.Lent.{mesh};
ghost use Rattle.text.specs.Put.{Room, Written, Wrote};

use crate::put::{Writer, words_size};
use lines::kind::Kind;
use mesh::fault::Fault;
use tables::lawful::LawfulTables;

impl Writer<'_> {
    // Writes the lines of the quads.
    fn put_quads(&mut self, corners: &[u32], friends: &[u32], marks: &[u32])
        requires corner_count { length corners.now ≡ 4 * (length corners.now / 4) }
        requires friend_count { length friends.now ≡ 2 * (length corners.now / 4) }
        requires mark_count { length marks.now ≡ 2 * (length corners.now / 4) }
        requires room { Room self.old (length (flat_map (line_text 48 49) (quad_rows (length corners.now / 4) corners.now friends.now marks.now))) }
        ensures { Wrote self.old (flat_map (line_text 48 49) (quad_rows (length corners.now / 4) corners.now friends.now marks.now)) self.new }
    {
        // by index: over chunks of the three tables, zipped, it proves as well, but writing took a tenth longer
        for q in 0..corners.len() / 4 {
            let c = 4 * q;
            let o = 2 * q;
            let row = [
                corners[c],
                corners[c + 1],
                corners[c + 2],
                corners[c + 3],
                friends[o],
                friends[o + 1],
                marks[o],
                marks[o + 1],
            ];
            self.put_line(Kind::Quad, &row);
        }
    }

    // Writes the lines of the points.
    fn put_starts(&mut self, starts: &[u32])
        requires { Room self.old (length (flat_map (line_text 48 50) (start_rows starts.now))) }
        ensures { Wrote self.old (flat_map (line_text 48 50) (start_rows starts.now)) self.new }
    {
        for start in starts {
            self.put_line(Kind::Start, &[*start]);
        }
    }

    // Writes the text of a mesh.
    fn put_text(&mut self, level: &LawfulTables<'_>)
        requires room { Room self.old (length (mesh_text (mesh level.now.tables))) }
        ensures { Wrote self.old (mesh_text (mesh level.now.tables)) self.new }
    {
        let tables = level.tables;
        let counts = [tables.quads() as u32, tables.starts.len() as u32];
        self.put_line(Kind::Counts, &counts);
        self.put_quads(tables.corners, tables.friends, tables.marks);
        self.put_starts(tables.starts);
    }
}

// How many bytes the text of a mesh has.
fn text_size(level: &LawfulTables<'_>) -> usize
    ensures { result ≡ length (mesh_text (mesh level.now.tables)) }
{
    let tables = level.tables;
    let quads = tables.quads();
    let points = tables.starts.len();
    let counts = words_size(&[quads as u32, points as u32]);
    let corners = words_size(tables.corners);
    let friends = words_size(tables.friends);
    let marks = words_size(tables.marks);
    let starts = words_size(tables.starts);
    3 * (1 + quads + points) + (counts + (corners + (friends + (marks + starts))))
}

// Writes the text of a mesh where there is room for it, and else nothing.
pub(crate) fn write_level(level: &LawfulTables<'_>, out: &mut [u8]) -> Result<usize, Fault>
    ensures { Written (mesh_text (mesh level.now.tables)) out.old out.new result }
{
    if out.len() < text_size(level) {
        return Err(Fault::TooShort);
    }
    let mut writer = Writer { out, at: 0 };
    writer.put_text(level);
    Ok(writer.at)
}
