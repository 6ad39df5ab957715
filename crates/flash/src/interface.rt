// The interface that every flash has, devices and layers alike, by its meaning.
ghost use Rattle.std.specs.Prelude.{◌≡◌};
ghost use Rattle.flash.specs.Meaning.{Meaning, Sane};
ghost use Rattle.flash.specs.Rules.{Programmed, Erased, Fetched, Restarted, Armed, mark_answer, Shaped};

use crate::place::{Place, Shape};
use crate::refusal::Refusal;

// `meaning` is what the user sees. Every call promises its rule of it.
pub trait Flash {
    ghost meaning: { Self → Meaning };

    // How large the flash is.
    fn shape(&self) -> Shape
        ensures { Shaped result (meaning self.now) };

    // The mark of a block: where the next program may begin.
    fn mark(&self, block: usize) -> Result<usize, Refusal>
        ensures { result ≡ mark_answer (meaning self.now) block };

    // Fills `out` with the bytes from a place on.
    fn read(&self, at: Place, out: &mut [u8]) -> Result<(), Refusal>
        ensures { Fetched (meaning self.now) at.block at.offset out.old result out.new };

    // Lays whole pages of bytes at a place.
    fn program(&mut self, at: Place, bytes: &[u8]) -> Result<(), Refusal>
        ensures { Programmed (meaning self.old) at.block at.offset bytes.now result (meaning self.new) };

    // Makes a block 0xFF.
    fn erase(&mut self, block: usize) -> Result<(), Refusal>
        ensures { Erased (meaning self.old) block result (meaning self.new) };

    // Arms the power: after `steps` more steps it fails, and `fault` decides what that leaves.
    fn arm(&mut self, steps: usize, fault: u8) -> Result<(), Refusal>
        ensures { Armed (meaning self.old) result (meaning self.new) };

    // Makes the power steady; what was held is lost.
    fn restart(&mut self)
        ensures { Restarted (meaning self.old) (meaning self.new) };

    // What holds of it at all times.
    ghost sane: { (flash : Self) → Sane (meaning flash) };
}
