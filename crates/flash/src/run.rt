// What can be done with any flash, from its interface alone.
ghost use Rattle.std.specs.Prelude.{◌≡◌, true, ◌==◌};
ghost use Rattle.flash.specs.Ran.{Ran, Did, Composes};
ghost use Rattle.flash.specs.Settling.{NothingHeld};
ghost use Rattle.flash.specs.Shown.{op_shown, ops_shown};

use crate::interface::Flash;
use crate::operation::Operation;
use crate::refusal::Refusal;

impl Operation<'_> {
    // Does the operation.
    fn apply<F: Flash>(self, flash: &mut F) -> Result<(), Refusal>
        ensures { Did (op_shown self.entry) (F.meaning flash.old) result (F.meaning flash.new) }
    {
        match self {
            Operation::Program { at, bytes } => flash.program(at, bytes),
            Operation::Erase { block } => flash.erase(block),
        }
    }
}

// Runs the operations in order, up to the first that is refused. Lists of operations compose.
pub fn run<F: Flash>(flash: &mut F, operations: &[Operation<'_>]) -> Result<(), Refusal>
    ensures ran { Ran (ops_shown operations.now) (F.meaning flash.old) result (F.meaning flash.new) }
    ensures composes { Composes }
{
    for operation in operations {
        operation.apply(flash)?;
    }
    Ok(())
}

// Whether nothing is ever held: so it is where a page is a batch.
pub fn nothing_held<F: Flash>(flash: &F) -> bool
    ensures value { result ≡ ((F.meaning flash.now).page == (F.meaning flash.now).batch) }
    ensures held { result ≡ true → NothingHeld (F.meaning flash.now) }
{
    flash.shape().settles_at_once()
}
