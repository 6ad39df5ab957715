// The blocks of a chip in the caller's memory, and its supply of power: what the chips have in common.
ghost use Rattle.std.specs.Prelude.{◌≡◌, ◌+◌, ◌*◌, ◌/◌, ◌<◌, ◌≤◌, true, false, length, take, drop, IfOk, MatchResult};
ghost use Rattle.flash.specs.Rules.{answered};
ghost use Rattle.devices.specs.Memory.{part_of, leaves, Within, laid, wiped};
ghost use Rattle.devices.specs.Steps.{spent, taken, left_by, arming};
ghost use Rattle.devices.specs.Bank.{blocks_in, HasBlock, holds_blocks, placed, pages_refusal, mark_refusal, allowed, outcome, rearmed};

use crate::memory::{spoil, tear, wipe};
use crate::supply::{Cut, Supply};
use flash::place::{Place, Shape};
use flash::refusal::Refusal;

// The bytes of a page, in which blocks are programmed, and those of a block.
#[derive(Clone, Copy)]
pub struct Sizes {
    pub(crate) page: usize,
    pub(crate) block: usize,
}

// The facts on the sizes stand here and not there: what `new` returns holds a `&mut`, and then the checker covers no ghost field
// of a struct further in.
#[derive(Drop)]
pub struct Bank<'a> {
    memory: &'a mut [u8],
    supply: Supply,
    pub(crate) sizes: Sizes,
    ghost some: { 0 < sizes.page },
    ghost pages: { sizes.page ≤ sizes.block },
    ghost few: { sizes.block ≤ 4224 },
}

// That an offset is not below the mark of its block, or the refusal. Asked last, and by the mark itself: to find it takes a look
// at the whole block.
pub(crate) fn check_mark(offset: usize, mark: usize) -> Result<(), Refusal>
    ensures { result ≡ allowed (mark_refusal mark offset) }
{
    if offset < mark {
        return Err(Refusal::BelowMark);
    }
    Ok(())
}

impl<'a> Bank<'a> {
    // The blocks of this memory, with what it holds; or the memory back, if it is not 4 to 16 whole blocks. Why, and what comes
    // back, are a pair as they are matched at once, here and wherever a flash is put together.
    pub(crate) fn new(
        memory: &'a mut [u8],
        sizes: Sizes,
    ) -> Result<Bank<'a>, (Refusal, &'a mut [u8])>
        requires some { 0 < sizes.page }
        requires pages { sizes.page ≤ sizes.block }
        requires few { sizes.block ≤ 4224 }
        ensures { MatchResult result (λ b. (holds_blocks sizes.block (length memory.old) ≡ true) × (b.memory.now ≡ memory.old) × (b.supply ≡ Supply.Steady) × (b.sizes ≡ sizes)) (λ e. (holds_blocks sizes.block (length memory.old) ≡ false) × (e.0 ≡ Refusal.Memory) × (e.1.now ≡ memory.old)) }
    {
        let n = memory.len();
        let size = sizes.block;
        if n % size != 0 || n < 4 * size || n > 16 * size {
            return Err((Refusal::Memory, memory));
        }
        Ok(Bank {
            memory,
            supply: Supply::Steady,
            sizes,
        })
    }
}

impl Bank<'_> {
    fn blocks(&self) -> usize
        ensures { result ≡ blocks_in self.now.sizes.block (length self.now.memory.now) }
    {
        (self.memory.len() / self.sizes.block).min(16)
    }

    // How large the chip is. What is programmed settles at once, so a page is a batch.
    pub(crate) fn shape(&self) -> Shape
        ensures blocks { result.blocks ≡ blocks_in self.now.sizes.block (length self.now.memory.now) }
        ensures size { result.size ≡ self.now.sizes.block }
        ensures pages { (result.page ≡ self.now.sizes.page) × (result.batch ≡ self.now.sizes.page) }
    {
        Shape {
            blocks: self.blocks(),
            size: self.sizes.block,
            page: self.sizes.page,
            batch: self.sizes.page,
        }
    }

    // The bytes of a block.
    pub(crate) fn block(&self, block: usize) -> &[u8]
        requires { HasBlock self.now.sizes.block (length self.now.memory.now) block }
        ensures { result.now ≡ part_of self.now.sizes.block self.now.memory.now block }
    {
        let from = block * self.sizes.block;
        &self.memory[from..from + self.sizes.block]
    }

    // Fills `out` with the bytes from a byte of the memory on.
    pub(crate) fn fetch(&self, from: usize, out: &mut [u8])
        requires { from + length out.old ≤ length self.now.memory.now }
        ensures { out.new ≡ take (length out.old) (drop from self.now.memory.now) }
    {
        out.copy_from_slice(&self.memory[from..from + out.len()]);
    }

    // Whether n bytes at a place leave the block, or the chip. The place and n come apart from each call of the interface, and no
    // fact binds them before this one, so they are no struct.
    fn leaves(&self, at: Place, n: usize) -> bool
        ensures { result ≡ leaves (blocks_in self.now.sizes.block (length self.now.memory.now)) self.now.sizes.block at.block at.offset n }
    {
        at.block >= self.blocks() || n > self.sizes.block || at.offset > self.sizes.block - n
    }

    // Where in the memory n bytes at a place begin, or why a call for them is refused.
    pub(crate) fn locate(&self, at: Place, n: usize) -> Result<usize, Refusal>
        ensures value { result ≡ answered (placed self.now.sizes.block (length self.now.memory.now) self.now.supply at.block at.offset n) (at.block * self.now.sizes.block + at.offset) }
        ensures within { IfOk result (λ from. Within self.now.sizes.block (length self.now.memory.now) at.block at.offset n from) }
        ensures there { IfOk result (λ _. HasBlock self.now.sizes.block (length self.now.memory.now) at.block) }
    {
        if let Supply::Off = self.supply {
            return Err(Refusal::NoPower);
        }
        if self.leaves(at, n) {
            return Err(Refusal::Outside);
        }
        Ok(at.block * self.sizes.block + at.offset)
    }

    // That n bytes at an offset are whole pages, or the refusal.
    pub(crate) fn check_pages(&self, offset: usize, n: usize) -> Result<(), Refusal>
        ensures { result ≡ allowed (pages_refusal self.now.sizes.page offset n) }
    {
        if offset % self.sizes.page != 0 || n % self.sizes.page != 0 {
            return Err(Refusal::NotPages);
        }
        Ok(())
    }

    // Lays a run of whole pages from a byte of the memory on. Each page is a step, and the one that fails takes the fault.
    pub(crate) fn lay(&mut self, from: usize, bytes: &[u8]) -> Result<(), Cut>
        requires { from + length bytes.now ≤ length self.old.memory.now }
        ensures value { result ≡ taken (spent self.old.supply (length bytes.now / self.old.sizes.page)) }
        ensures left { self.new.supply ≡ left_by (spent self.old.supply (length bytes.now / self.old.sizes.page)) }
        ensures memory { self.new.memory.now ≡ laid self.old.sizes.page self.old.memory.now from bytes.now result }
        ensures same { self.new.sizes ≡ self.old.sizes }
    {
        let n = bytes.len();
        match self.supply.take(n / self.sizes.page) {
            Ok(()) => {
                self.memory[from..from + n].copy_from_slice(bytes);
                Ok(())
            }
            Err(cut) => {
                let end = (cut.after + 1) * self.sizes.page;
                let part = &mut self.memory[from..from + end];
                part.copy_from_slice(&bytes[..end]);
                tear(part, self.sizes.page, cut.fault);
                Err(cut)
            }
        }
    }

    // Erases a block, which is one step. One that fails sets the fault's bits in the block.
    pub(crate) fn clear(&mut self, block: usize) -> Result<(), Cut>
        requires { HasBlock self.old.sizes.block (length self.old.memory.now) block }
        ensures value { result ≡ taken (spent self.old.supply 1) }
        ensures left { self.new.supply ≡ left_by (spent self.old.supply 1) }
        ensures memory { self.new.memory.now ≡ wiped self.old.sizes.block self.old.memory.now block result }
        ensures same { self.new.sizes ≡ self.old.sizes }
    {
        let from = block * self.sizes.block;
        let part = &mut self.memory[from..from + self.sizes.block];
        match self.supply.take(1) {
            Ok(()) => {
                wipe(part);
                Ok(())
            }
            Err(cut) => {
                spoil(part, cut.fault);
                Err(cut)
            }
        }
    }

    // Arms the power anew.
    pub(crate) fn arm(&mut self, steps: usize, fault: u8) -> Result<(), Refusal>
        ensures value { outcome result self.new.memory.now self.new.supply ≡ rearmed self.old.memory.now self.old.supply (arming self.old.supply steps fault) }
        ensures same { self.new.sizes ≡ self.old.sizes }
    {
        self.supply = self.supply.arm(steps, fault)?;
        Ok(())
    }

    // Makes the power steady.
    pub(crate) fn power_up(&mut self)
        ensures steady { (self.new.memory.now ≡ self.old.memory.now) × (self.new.supply ≡ Supply.Steady) }
        ensures same { self.new.sizes ≡ self.old.sizes }
    {
        self.supply = Supply::Steady;
    }
}
