// Whether a loss is fair.
ghost use Rattle.std.specs.Prelude.{◌≡◌, true, length};
ghost use Rattle.nodes.specs.Image.{seen_in};
ghost use Rattle.nodes.specs.Walk.{walk};
ghost use Rattle.losses.specs.Fair.{fair, loss_fair};
ghost use Rattle.losses.specs.Left.{Leading};
ghost use Rattle.losses.specs.Laws.{FairDecided, NothingLost, RowsKept, RowsLeft};
ghost use Rattle.losses.specs.Laws.{OpeningLoss, ProgramLoss, ProgramSpares, EraseLoss, RestartLoss};
ghost use Rattle.losses.specs.Laws.{SyncedKept, SyncedProgram};
ghost use Rattle.losses.specs.Laws.{HeldFinished, ProgramFinishes, RestartShows, UnheldFinished};
ghost use Rattle.losses.specs.Examples.{Examples};

use crate::compare::{are_same, counted_of};
use nodes::image::Image;
use nodes::reader::Reader;

// Whether nothing is met in `got` but the first items of `want`, item by item.
fn only_first(want: Image<'_>, got: Image<'_>) -> bool
    requires { length want.bytes.now ≡ length got.bytes.now }
    ensures { result ≡ fair (seen_in want.entry) (walk (seen_in want.entry)) (seen_in got.entry) }
{
    let mut before = Reader::new(0, want);
    for _met in Reader::new(0, got) {
        let Some(meant) = before.next() else {
            return false;
        };
        if !are_same(want, got, meant.place.offset, counted_of(meant.item)) {
            return false;
        }
    }
    true
}

// The answer of `is_fair`.
fn decide(want: Image<'_>, got: Image<'_>) -> bool
    ensures { result ≡ loss_fair (seen_in want.entry) (seen_in got.entry) }
{
    want.bytes.len() == got.bytes.len() && only_first(want, got)
}

// Whether a loss of power was fair that left `got` on a block on which `want` was to stand. If so, the items met in `got` are
// the first of those in `want`. Rows of different lengths are not of one block: for these it is false.
pub fn is_fair(want: Image<'_>, got: Image<'_>) -> bool
    ensures answer { result ≡ loss_fair (seen_in want.entry) (seen_in got.entry) }
    ensures left { result ≡ true → Leading (walk (seen_in got.entry)) (walk (seen_in want.entry)) }
    ensures rows { RowsLeft }
    ensures kept { RowsKept }
    ensures nothing { NothingLost }
    ensures decided { FairDecided }
    ensures program { ProgramLoss }
    ensures opening { OpeningLoss }
    ensures spares { ProgramSpares }
    ensures erase { EraseLoss }
    ensures restart { RestartLoss }
    ensures synced { SyncedKept }
    ensures follows { SyncedProgram }
    ensures finishes { ProgramFinishes }
    ensures held { HeldFinished }
    ensures unheld { UnheldFinished }
    ensures shows { RestartShows }
    ensures examples { Examples }
{
    decide(want, got)
}
