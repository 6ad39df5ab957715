// Tries flashes by a script, which it reads from standard input, and prints each line of it with its answer. The model makes
// the script and what has to be printed; it knows nothing of this code.
//
// A script is a row of parts, with '#' between them. The first line of a part puts a flash together, the others call it:
//
//     chip BYTES BITS PAGE          in so many bytes of memory: a NOR chip for pages of 4, a NAND chip for 512 and 528
//     pile BYTES BITS PAGE          a write buffer over that chip
//     shape
//     mark BLOCK
//     read BLOCK OFFSET N           into bytes 0xa5: the length of the buffer and its sum after that
//     program BLOCK OFFSET N BITS
//     erase BLOCK
//     arm STEPS FAULT
//     restart                       and then a look at the mark of block 0
//     look BLOCK                    a number for what the block holds, and a bit for each eighth of it that can be read
//
// Byte i of memory, and of a run to program, is i modulo 251 with the bits of BITS set: 255 makes all of them 0xff. The first
// line of a part answers the shape of the flash, or a refusal with what came back: the length and the sum of the memory, or
// the shape of the chip. A part that ends in `quiet` prints nothing but one number for all its answers. A run has at most 8,192
// bytes, and memory 131,072.
#![tactic(auto)]

mod answer;
mod ask;
mod command;
mod part;

use part::Part;
use std::io;

// As in the other programs that read a script: what is printed can stand in no contract, and so in no function that they share.
fn main(rt: HostRuntime) -> io::Result<()> {
    let script = io::read_to_string(rt.alloc(), rt.stdin())?;
    for text in script.split('#') {
        let part = Part {
            rt: &rt,
            text: text.trim_end(),
        };
        part.run()?;
    }
    Ok(())
}
