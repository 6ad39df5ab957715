// The one rule of superseding: of the records of one key, the one of the highest version.
ghost use Rattle.std.specs.Prelude.{◌≡◌, Some, option_copied};
ghost use Rattle.std.specs.Iterator.{ActsAsAt};
ghost use Rattle.std.specs.List.{flat_map};
ghost use Rattle.tree.specs.Newest.{newest, better, at_most};

use crate::block::Block;
use crate::kind::Record;
use tree::supersedes;

// The newer of the best so far and one record more; the one met first, where they are twins.
pub(crate) fn newer<'a, R: Record>(best: Option<&'a R>, one: &'a R) -> Option<&'a R>
    ensures { option_copied result ≡ Some (better R.version (option_copied best.entry) one.now) }
{
    match best {
        Some(b) if !supersedes(one.version(), b.version()) => Some(b),
        _ => Some(one),
    }
}

// The newest of the records that are picked, by the test that `picks` computes; of twins the first. The best so far is a reference,
// as a record would be copied at each that is picked.
pub(crate) fn newest<R: Record, F: Fn(&R) -> bool>(blocks: &[Block], picks: F) -> Option<R>
    requires { F.IsAlwaysCallable picks }
    ensures { (picked : _) → ActsAsAt F.FnMut picks picked → result ≡ newest R.version picked (flat_map R.listed blocks.now) }
{
    blocks
        .iter()
        .flat_map(|b| R::of(b))
        .filter(|r| picks(*r))
        .fold(None, newer)
        .copied()
}

// Whether what a look-up found is not newer than a version.
pub(crate) fn is_unbeaten<R: Record>(found: Option<R>, version: u32) -> bool
    ensures { result ≡ at_most R.version version found }
{
    !found.is_some_and(|other| supersedes(other.version(), version))
}
