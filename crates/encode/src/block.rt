// Runs of items laid into the image of a block.
ghost use Rattle.std.specs.Prelude.{◌≡◌, ◌+◌, true, length, is_some, nat_le};
ghost use Rattle.flash.specs.Cells.{cells, over};
ghost use Rattle.encode.specs.Laws.{Appended, Opened};
ghost use Rattle.encode.specs.Made.{Made};

// Lays the bytes of a run at the end of a block, and answers the new end; refuses a run that does not fit. Where the block's
// items end there and blank cells follow, just the items of the run come after them.
pub fn append(block: &mut [u8], end: usize, bytes: &[u8]) -> Option<usize>
    ensures made { Made (nat_le (end + length bytes.now) (length block.old)) (end + length bytes.now) (over block.old end bytes.now) block.old block.new result }
    ensures appended { is_some result ≡ true → Appended (cells block.old) end bytes.now (cells block.new) }
    ensures opened { is_some result ≡ true → end ≡ 0 → Opened (cells block.old) bytes.now (cells block.new) }
{
    let behind = end.checked_add(bytes.len())?;
    if behind > block.len() {
        return None;
    }
    block[end..behind].copy_from_slice(bytes);
    Some(behind)
}
