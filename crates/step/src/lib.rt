// The step on bytes, for programs and for a caller in C: read, load, refine once, write.
#![tactic(auto)]

ghost use Rattle.std.specs.Prelude.{◌≡◌, MatchResult};
ghost use Rattle.mesh.specs.Refusals.{number_of, place_of};
ghost use Rattle.text.specs.Writes.{frame_text};
ghost use Rattle.step.specs.Step.{Answers, StepRefines, step_text};

use bench::bench::Bench;
use lines::TablesMut;
use mesh::fault::Fault;
use refining::once::refine_once;
use text::frame::write_frame;
use text::load::load_text;
use text::write::write_text;

// The longest input that is looked at.
pub const LONGEST_INPUT: usize = 9802;

// Room for 192 quads and 384 points, and the working words to refine such a mesh once. Fixed, since the library has no heap, and a caller in C lends no tables.
const QUADS: usize = 192;

const POINTS: usize = 384;

const WORDS: usize = 9600;

// The count of bytes of the refined mesh's text in the front of the output, 0 where it does not fit; or why the input was refused, with nothing written.
fn refined(input: &[u8], output: &mut [u8]) -> Result<usize, Fault>
    ensures { MatchResult result (λ n. Answers output.old (step_text input.now) n output.new) (λ f. (frame_text (number_of f) (place_of f) ≡ step_text input.now) × (output.new ≡ output.old)) }
{
    if input.len() > LONGEST_INPUT {
        return Err(Fault::TooShort);
    }
    let mut corners = [0u32; 4 * QUADS];
    let mut friends = [0u32; 2 * QUADS];
    let mut marks = [0u32; 2 * QUADS];
    let mut starts = [0u32; POINTS];
    let mut words = [0u32; WORDS];
    let mut tables = TablesMut {
        corners: &mut corners,
        friends: &mut friends,
        marks: &mut marks,
        starts: &mut starts,
    };
    let mut bench = Bench::new(&mut words, 0);
    load_text(&mut bench, input, &mut tables)?;
    refine_once(&mut bench)?;
    // 0 for no room too, since the C call answers a count, and 0 says that nothing was written
    Ok(write_text(&bench, output).unwrap_or(0))
}

// A mesh text refined once: the count of bytes written to the front of the output, or 0 and nothing written where it is too short for the answer.
pub fn mesh_refine_step(input: &[u8], output: &mut [u8]) -> usize
    ensures { Answers output.old (step_text input.now) result output.new }
{
    match refined(input, output) {
        Ok(count) => count,
        // no `unwrap_or_else`: tried, and it leaves the output's last value under a name that a proof may not cite
        Err(fault) => write_frame(&fault, output).unwrap_or(0),
    }
}

// A lawful mesh that is not too large is answered by its refinement.
pub fn step_refines()
    ensures { StepRefines }
{}
