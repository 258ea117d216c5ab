// The step on bytes, for a caller in C. It only passes on: the program `refine` makes the same call, and a static library can be used by no crate.
#![tactic(auto)]

ghost use Rattle.step.specs.Step.{Answers, step_text};

// A mesh text refined once: the count of bytes written to the front of the output, or 0 and nothing written where it is too short for the answer.
#[unsafe(no_mangle)]
pub extern "C" fn mesh_refine_step(input: &[u8], output: &mut [u8]) -> usize
    ensures { Answers output.old (step_text input.now) result output.new }
{
    step::mesh_refine_step(input, output)
}
