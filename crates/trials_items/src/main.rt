// Tries sums, encoders, fillings, the reader of items and the judge by a script, which it reads from standard input, and
// prints its lines with what they answer. The model makes the script and what has to be printed; it knows nothing of this
// code. The lines are about one block of 4,096 bytes:
//
//     block                         erases it, and every page can be read
//     put AT 0 HEX                  lays bytes at a place
//     zero AT N                     lays so many zeros at a place
//     lose PAGE                     that page of 4 bytes cannot be read
//     marker
//     entry INO TYPE NAME           lays an entry at 12, of number 1 and version 3
//     content DSIZE COMPR DATA      lays a content at 12, of number 2 and version 4: its part from 100 on of 1,000 bytes
//     filling END BATCH ROOM        fills a batch, in so much room at the block's start
//     walk LENGTH FLAGS ..          walks so many bytes of the block with the flags of so many pages
//     sum N                         the sum of its first bytes
//
// An encoder answers how many bytes it laid, 9999 for none, and a number for all of the block. A walk answers how many items
// it met, the place of the last, the number of the first offence or 0, and one number for all fields of all items.
#![tactic(auto)]

mod answer;
mod block;
mod command;
mod walk;

use block::Block;
use command::parse;
use std::io;

// As in the other programs that read a script: what is printed can stand in no contract, and so in no function that they share.
fn main(rt: HostRuntime) -> io::Result<()> {
    let script = io::read_to_string(rt.alloc(), rt.stdin())?;
    let mut block = Block::new();
    for line in script.lines() {
        if let Some(answer) = block.ask(parse(line)) {
            println!(rt; "{line}: {answer}")?;
        }
    }
    Ok(())
}
