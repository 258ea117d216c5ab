// A mesh text from standard input, refined once, to standard output; a refusal is a frame, and the status is 0 then too.
#![tactic(auto)]

use std::io;
use std::io::{Read, Write};
use step::{LONGEST_INPUT, mesh_refine_step};

// One byte more than is looked at, so that a longer input shows.
const INPUT: usize = LONGEST_INPUT + 1;

// More than the text of the largest mesh that is answered, which has 35,147 bytes.
const OUTPUT: usize = 65_536;

// Fills the buffer until it is full or the input ends, and says how many bytes came.
// By a loop: `read_to_end` needs a heap, and `io::copy` reads 8,192 bytes at most at once, so that of a longer message of a socket the rest is lost.
fn read_up_to(from: &mut impl Read, buffer: &mut [u8]) -> io::Result<usize> {
    let mut have = 0;
    for _ in 0..buffer.len() {
        if have >= buffer.len() {
            break;
        }
        let got = from.read(&mut buffer[have..])?;
        if got == 0 {
            break;
        }
        have += got;
    }
    Ok(have)
}

fn main(rt: HostRuntime) -> io::Result<()> {
    // buffers and counts, since the step is made for the C call, and no Vec: this program needs no heap, so that it can't run out of one
    let mut input = [0u8; INPUT];
    let mut output = [0u8; OUTPUT];
    let have = read_up_to(&mut rt.stdin(), &mut input)?.min(INPUT);
    let count = mesh_refine_step(&input[..have], &mut output);
    rt.stdout().write_all(&output[..count])
}
