// Where batches begin, and the bytes of a batch over those of a read.
ghost use Rattle.std.specs.Prelude.{◌≡◌, ◌+◌, ◌-◌, ◌^◌, ◌<◌, ◌≤◌, min, List, length};
ghost use Rattle.std.specs.Int.{next_multiple_of};
ghost use Rattle.flash.specs.Cells.{Cell, cells, over};
ghost use Rattle.flash.specs.Refused.{part};

// The first place from a mark on at which a batch begins.
pub(crate) fn raise(mark: usize, batch: usize) -> usize
    requires some { 0 < batch }
    requires fits { next_multiple_of mark batch < 2 ^ 64 }
    ensures { result ≡ next_multiple_of mark batch }
{
    mark.next_multiple_of(batch)
}

// How many bytes two rows have in common, if from `to` on the one and from `from` on the other they lie side by side.
pub(crate) fn shared(n: usize, to: usize, g: usize, from: usize) -> usize
    ensures { result ≡ min (n - to) (g - from) }
{
    n.saturating_sub(to).min(g.saturating_sub(from))
}

// Bytes held from the place `start` on, laid over what was read from the place `offset` on.
pub(crate) fn cover(out: &mut [u8], offset: usize, held: &[u8], start: usize)
    ensures { (xs : List Cell) → offset + length out.old ≤ length xs → start + length held.now ≤ length xs → cells out.old ≡ part xs offset (length out.old) → cells out.new ≡ part (over xs start (cells held.now)) offset (length out.old) }
{
    let to = start.saturating_sub(offset);
    let from = offset.saturating_sub(start);
    let n = shared(out.len(), to, held.len(), from);
    if n > 0 {
        out[to..to + n].copy_from_slice(&held[from..from + n]);
    }
}
