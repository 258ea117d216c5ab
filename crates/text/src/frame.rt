// A refusal as text: the frame of kind ff with its number and its place.
ghost use Rattle.text.specs.Put.{Written};
ghost use Rattle.text.specs.Writes.{frame_text};
ghost use Rattle.mesh.specs.Refusals.{number_of, place_of};

use crate::put::{Writer, words_size};
use lines::kind::Kind;
use mesh::fault::Fault;

// Writes the frame of a refusal to the front of the buffer, and answers how many bytes it has.
pub fn write_frame(fault: &Fault, out: &mut [u8]) -> Result<usize, Fault>
    ensures { Written (frame_text (number_of fault.now) (place_of fault.now)) out.old out.new result }
{
    let words = [u32::from(fault.number()), fault.place()];
    if out.len() < 3 + words_size(&words) {
        return Err(Fault::TooShort);
    }
    // as in `write_level`: a function of these three lines would take what is put as a closure, with a clause on what it leaves
    let mut writer = Writer { out, at: 0 };
    writer.put_line(Kind::Refusal, &words);
    Ok(writer.at)
}
