// A NOR chip in the caller's memory: 4 to 16 blocks of 4,096 bytes, programmed in words of four bytes that settle at once.
ghost use Rattle.std.specs.Prelude.{◌≡◌, ◌+◌, ◌*◌, ◌^◌, ◌<◌, ◌≤◌, true, false, length, IfOk, MatchResult};
ghost use Rattle.std.specs.Int.{next_multiple_of};
ghost use Rattle.flash.specs.Refused.{program_refusal};
ghost use Rattle.flash.specs.Rules.{answered, Programmed, Erased, Armed, Restarted};
ghost use Rattle.devices.specs.Memory.{part_of, Within};
ghost use Rattle.devices.specs.declared.supply.Supply.{Supply};
ghost use Rattle.devices.specs.Bank.{HasBlock, holds_blocks, outcome};
ghost use Rattle.devices.specs.Nor.{SIZE, mark_of, nor, nor_program, nor_erase, nor_arm};

use crate::bank::{Bank, Sizes, check_mark};
use flash::bytes::reach;
use flash::interface::Flash;
use flash::place::{Place, Shape};
use flash::refusal::Refusal;

const PAGE: usize = 4;

const BLOCK: usize = 4096;

// The end of the page in which the byte before `end` lies.
fn page_end(end: usize) -> usize
    requires { next_multiple_of end 4 < 2 ^ 64 }
    ensures { result ≡ next_multiple_of end 4 }
{
    end.next_multiple_of(PAGE)
}

#[derive(Drop)]
pub struct Nor<'a> {
    bank: Bank<'a>,
    ghost page: { bank.sizes.page ≡ 4 },
    ghost block: { bank.sizes.block ≡ 4096 },
}

impl<'a> Nor<'a> {
    // A chip in this memory, with what it holds; or the memory back, if it is not 4 to 16 whole blocks. A refusal and what comes
    // back are a pair, as they are matched at once.
    pub fn new(memory: &'a mut [u8]) -> Result<Nor<'a>, (Refusal, &'a mut [u8])>
        ensures { MatchResult result (λ f. (holds_blocks 4096 (length memory.old) ≡ true) × (f.bank.memory.now ≡ memory.old) × (f.bank.supply ≡ Supply.Steady)) (λ e. (holds_blocks 4096 (length memory.old) ≡ false) × (e.0 ≡ Refusal.Memory) × (e.1.now ≡ memory.old)) }
    {
        let sizes = Sizes {
            page: PAGE,
            block: BLOCK,
        };
        Ok(Nor {
            bank: Bank::new(memory, sizes)?,
        })
    }
}

impl Nor<'_> {
    // The end of the last page of a block that is not all 0xFF.
    fn mark_of(&self, block: usize) -> usize
        requires { HasBlock self.now.bank.sizes.block (length self.now.bank.memory.now) block }
        ensures { result ≡ mark_of (part_of SIZE self.now.bank.memory.now block) }
    {
        page_end(reach(self.bank.block(block)))
    }

    // Where in the memory a program of n bytes begins, or why it is refused.
    fn locate_blank(&self, at: Place, n: usize) -> Result<usize, Refusal>
        ensures value { result ≡ answered (program_refusal (nor self.now.bank.memory.now self.now.bank.supply) at.block at.offset n) (at.block * 4096 + at.offset) }
        ensures within { IfOk result (λ from. Within 4096 (length self.now.bank.memory.now) at.block at.offset n from) }
    {
        let from = self.bank.locate(at, n)?;
        self.bank.check_pages(at.offset, n)?;
        check_mark(at.offset, self.mark_of(at.block))?;
        Ok(from)
    }
}

// Beyond the interface, `exact` says what it leaves open: how many steps are left after a call, and which page or block
// fails with which bytes. What the chips share is in the bank; the calls put it together with flags and marks, each their own.
impl Flash for Nor<'_> {
    ghost use Rattle.devices.specs.Sane.{nor_sane};

    ghost meaning = { λ s. nor s.bank.memory.now s.bank.supply };

    fn shape(&self) -> Shape {
        self.bank.shape()
    }

    fn mark(&self, block: usize) -> Result<usize, Refusal> {
        self.bank.locate(Place { block, offset: 0 }, 0)?;
        Ok(self.mark_of(block))
    }

    fn read(&self, at: Place, out: &mut [u8]) -> Result<(), Refusal> {
        let from = self.bank.locate(at, out.len())?;
        self.bank.fetch(from, out);
        Ok(())
    }

    fn program(&mut self, at: Place, bytes: &[u8]) -> Result<(), Refusal>
        ensures met { Programmed (nor self.old.bank.memory.now self.old.bank.supply) at.block at.offset bytes.now result (nor self.new.bank.memory.now self.new.bank.supply) }
        ensures exact { outcome result self.new.bank.memory.now self.new.bank.supply ≡ nor_program self.old.bank.memory.now self.old.bank.supply at.block at.offset bytes.now }
    {
        let from = self.locate_blank(at, bytes.len())?;
        self.bank.lay(from, bytes)?;
        Ok(())
    }

    fn erase(&mut self, block: usize) -> Result<(), Refusal>
        ensures met { Erased (nor self.old.bank.memory.now self.old.bank.supply) block result (nor self.new.bank.memory.now self.new.bank.supply) }
        ensures exact { outcome result self.new.bank.memory.now self.new.bank.supply ≡ nor_erase self.old.bank.memory.now self.old.bank.supply block }
    {
        self.bank.locate(Place { block, offset: 0 }, 0)?;
        self.bank.clear(block)?;
        Ok(())
    }

    fn arm(&mut self, steps: usize, fault: u8) -> Result<(), Refusal>
        ensures met { Armed (nor self.old.bank.memory.now self.old.bank.supply) result (nor self.new.bank.memory.now self.new.bank.supply) }
        ensures exact { outcome result self.new.bank.memory.now self.new.bank.supply ≡ nor_arm self.old.bank.memory.now self.old.bank.supply steps fault }
    {
        self.bank.arm(steps, fault)
    }

    fn restart(&mut self)
        ensures met { Restarted (nor self.old.bank.memory.now self.old.bank.supply) (nor self.new.bank.memory.now self.new.bank.supply) }
        ensures exact { (self.new.bank.memory.now ≡ self.old.bank.memory.now) × (self.new.bank.supply ≡ Supply.Steady) }
    {
        self.bank.power_up();
    }

    ghost sane = { λ flash. nor_sane flash.bank.memory.now flash.bank.supply };
}
