// Reads whole blocks of any flash, for the item reader: the bytes, and which of them could be read. Start reading at
// `read_block`.
#![tactic(auto)]

ghost use Rattle.std.specs.Prelude.{◌≡◌, ◌+◌, ◌*◌, ◌/◌, ◌<◌, ◌≤◌, true, length, replicate};
ghost use Rattle.survey.specs.Surveyed.{WordRead, Noted, Fits, Surveyed};
ghost use Rattle.nodes.specs.Seen.{seen};

use flash::interface::Flash;
use flash::place::Place;
use flash::refusal::Refusal;

// Reads a word, if it can be read.
fn read_word<F: Flash>(flash: &F, at: Place, word: &mut [u8]) -> bool
    ensures { WordRead (F.meaning flash.now) at.block at.offset word.old result word.new }
{
    flash.read(at, word).is_ok()
}

// Reads the i-th word of a block, and notes whether it can be read.
fn note_word<F: Flash>(flash: &F, block: usize, i: usize, bytes: &mut [u8], readable: &mut [bool])
    requires { (i * 4 + 4 ≤ length bytes.old) × (i < length readable.old) }
    ensures { Noted (F.meaning flash.now) block i bytes.old readable.old bytes.new readable.new }
{
    let from = i * 4;
    let at = Place {
        block,
        offset: from,
    };
    readable[i] = read_word(flash, at, &mut bytes[from..from + 4]);
}

// Reads a block word by word, as some of them cannot be read. By index: after a loop over `chunks_exact_mut` with
// `iter_mut` no proof knows what the elements are (tried).
fn read_words<F: Flash>(flash: &F, block: usize, bytes: &mut [u8], readable: &mut [bool])
    ensures { Fits (F.meaning flash.now) block bytes.old readable.old → seen readable.new bytes.new ≡ (F.meaning flash.now).shown block }
{
    let words = readable.len().min(bytes.len() / 4);
    for i in 0..words {
        note_word(flash, block, i, bytes, readable);
    }
}

// Reads a block into `bytes`, which is as long as the block, and notes in `readable`, for each 4 bytes, whether they can be
// read. The block is read whole, and word by word only where some of it cannot be read. Both are buffers of the caller's: a
// struct round two `&mut` would be made for this one call.
pub fn read_block<F: Flash>(
    flash: &F,
    block: usize,
    bytes: &mut [u8],
    readable: &mut [bool],
) -> Result<(), Refusal>
    ensures { Surveyed (F.meaning flash.now) block bytes.old readable.old result bytes.new readable.new }
{
    match flash.read(Place { block, offset: 0 }, bytes) {
        Ok(()) => {
            readable.fill(true);
            Ok(())
        }
        Err(refusal) => {
            if refusal != Refusal::Unreadable {
                return Err(refusal);
            }
            read_words(flash, block, bytes, readable);
            Ok(())
        }
    }
}
