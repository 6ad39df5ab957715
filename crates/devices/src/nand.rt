// A NAND chip in the caller's memory: 4 to 16 blocks of eight pages, each of 512 or of 528 bytes, programmed in whole pages
// that settle at once. A page can become unreadable, which the chip keeps beside the memory.
ghost use Rattle.std.specs.Prelude.{◌≡◌, ◌+◌, ◌*◌, ◌<◌, ◌≤◌, true, false, length, replicate, IfOk, IfErr, MatchResult};
ghost use Rattle.flash.specs.Refused.{program_refusal, read_refusal};
ghost use Rattle.flash.specs.Rules.{answered, Programmed, Erased, Armed, Restarted};
ghost use Rattle.devices.specs.Memory.{part_of, Within};
ghost use Rattle.devices.specs.declared.supply.Supply.{Supply};
ghost use Rattle.devices.specs.Bank.{HasBlock, holds_blocks, outcome};
ghost use Rattle.devices.specs.Sizes.{bytes_in, is_page, size_of};
ghost use Rattle.devices.specs.Pages.{flags_laid, flags_wiped};
ghost use Rattle.devices.specs.Nand.{nand, nand_program, nand_erase, nand_arm};

use crate::bank::{Bank, Sizes, check_mark};
use crate::pages::{Block, NandPage};
use crate::supply::Cut;
use flash::interface::Flash;
use flash::place::{Place, Shape};
use flash::refusal::Refusal;

// The flags are an array, with room for 16 blocks, as a chip takes no memory but the caller's: set for a page that is lost.
#[derive(Drop)]
pub struct Nand<'a> {
    bank: Bank<'a>,
    lost: [bool; 128],
    ghost eight: { bank.sizes.block ≡ size_of bank.sizes.page },
    ghost kinds: { is_page bank.sizes.page ≡ true },
}

impl<'a> Nand<'a> {
    // A chip in this memory, with what it holds, all of it readable; or the memory back, if it is not 4 to 16 whole blocks. A
    // refusal and what comes back are a pair, as they are matched at once.
    pub fn new(memory: &'a mut [u8], kind: NandPage) -> Result<Nand<'a>, (Refusal, &'a mut [u8])>
        ensures { MatchResult result (λ f. (holds_blocks (size_of (bytes_in kind)) (length memory.old) ≡ true) × (f.bank.memory.now ≡ memory.old) × (f.bank.sizes.page ≡ bytes_in kind) × (f.lost ≡ replicate 128 false) × (f.bank.supply ≡ Supply.Steady)) (λ e. (holds_blocks (size_of (bytes_in kind)) (length memory.old) ≡ false) × (e.0 ≡ Refusal.Memory) × (e.1.now ≡ memory.old)) }
    {
        let page = kind.bytes();
        let sizes = Sizes {
            page,
            block: 8 * page,
        };
        Ok(Nand {
            bank: Bank::new(memory, sizes)?,
            lost: [false; 128],
        })
    }
}

// Sets the flags of n pages that were laid, the last of which may have failed: then it is lost if the fault was odd.
fn flag_laid(lost: &mut [bool; 128], first: usize, n: usize, done: Result<(), Cut>)
    requires pages { first + n ≤ 128 }
    requires one { IfErr done (λ cut. cut.after < n) }
    ensures { lost.new ≡ flags_laid lost.old first n done }
{
    match done {
        Ok(()) => lost[first..first + n].fill(false),
        Err(cut) => {
            lost[first..first + cut.after].fill(false);
            lost[first + cut.after] = cut.fault % 2 == 1;
        }
    }
}

// Sets the flags of a block that was erased. If that failed, its pages are lost if the fault was odd.
fn flag_wiped(lost: &mut [bool; 128], block: usize, done: Result<(), Cut>)
    requires { block < 16 }
    ensures { lost.new ≡ flags_wiped lost.old block done }
{
    match done {
        Ok(()) => lost[block * 8..block * 8 + 8].fill(false),
        Err(cut) if cut.fault % 2 == 1 => lost[block * 8..block * 8 + 8].fill(true),
        Err(_) => {}
    }
}

impl Nand<'_> {
    // A block as it stands.
    fn block(&self, block: usize) -> Block<'_>
        requires { HasBlock self.now.bank.sizes.block (length self.now.bank.memory.now) block }
        ensures bytes { result.bytes.now ≡ part_of (size_of self.now.bank.sizes.page) self.now.bank.memory.now block }
        ensures lost { result.lost.now ≡ part_of 8 self.now.lost block }
        ensures page { result.page ≡ self.now.bank.sizes.page }
    {
        Block {
            bytes: self.bank.block(block),
            lost: &self.lost[block * 8..block * 8 + 8],
            page: self.bank.sizes.page,
        }
    }

    // Where in the memory a program of n bytes begins, or why it is refused.
    fn locate_blank(&self, at: Place, n: usize) -> Result<usize, Refusal>
        ensures value { result ≡ answered (program_refusal (nand self.now.bank.sizes.page self.now.bank.memory.now self.now.lost self.now.bank.supply) at.block at.offset n) (at.block * size_of self.now.bank.sizes.page + at.offset) }
        ensures within { IfOk result (λ from. Within (size_of self.now.bank.sizes.page) (length self.now.bank.memory.now) at.block at.offset n from) }
        ensures there { IfOk result (λ _. HasBlock self.now.bank.sizes.block (length self.now.bank.memory.now) at.block) }
    {
        let from = self.bank.locate(at, n)?;
        self.bank.check_pages(at.offset, n)?;
        check_mark(at.offset, self.block(at.block).mark())?;
        Ok(from)
    }

    // Where in the memory a part of n bytes begins that can be read, or why a read is refused.
    fn locate_read(&self, at: Place, n: usize) -> Result<usize, Refusal>
        ensures value { result ≡ answered (read_refusal (nand self.now.bank.sizes.page self.now.bank.memory.now self.now.lost self.now.bank.supply) at.block at.offset n) (at.block * size_of self.now.bank.sizes.page + at.offset) }
        ensures within { IfOk result (λ from. Within (size_of self.now.bank.sizes.page) (length self.now.bank.memory.now) at.block at.offset n from) }
    {
        let from = self.bank.locate(at, n)?;
        if self.block(at.block).is_lost(at.offset, n) {
            return Err(Refusal::Unreadable);
        }
        Ok(from)
    }
}

// Beyond the interface, `exact` says what it leaves open: how many steps are left after a call, and which page or block
// fails with which bytes, and can or cannot be read.
impl Flash for Nand<'_> {
    ghost use Rattle.devices.specs.SanePages.{nand_sane};

    ghost meaning = { λ s. nand s.bank.sizes.page s.bank.memory.now s.lost s.bank.supply };

    fn shape(&self) -> Shape {
        self.bank.shape()
    }

    fn mark(&self, block: usize) -> Result<usize, Refusal> {
        self.bank.locate(Place { block, offset: 0 }, 0)?;
        Ok(self.block(block).mark())
    }

    fn read(&self, at: Place, out: &mut [u8]) -> Result<(), Refusal> {
        let from = self.locate_read(at, out.len())?;
        self.bank.fetch(from, out);
        Ok(())
    }

    fn program(&mut self, at: Place, bytes: &[u8]) -> Result<(), Refusal>
        ensures met { Programmed (nand self.old.bank.sizes.page self.old.bank.memory.now self.old.lost self.old.bank.supply) at.block at.offset bytes.now result (nand self.new.bank.sizes.page self.new.bank.memory.now self.new.lost self.new.bank.supply) }
        ensures exact { outcome result (self.new.bank.memory.now, self.new.lost) self.new.bank.supply ≡ nand_program self.old.bank.sizes.page self.old.bank.memory.now self.old.lost self.old.bank.supply at.block at.offset bytes.now }
        ensures same { self.new.bank.sizes.page ≡ self.old.bank.sizes.page }
    {
        let from = self.locate_blank(at, bytes.len())?;
        let page = self.bank.sizes.page;
        let done = self.bank.lay(from, bytes);
        flag_laid(
            &mut self.lost,
            at.block * 8 + at.offset / page,
            bytes.len() / page,
            done,
        );
        done?;
        Ok(())
    }

    fn erase(&mut self, block: usize) -> Result<(), Refusal>
        ensures met { Erased (nand self.old.bank.sizes.page self.old.bank.memory.now self.old.lost self.old.bank.supply) block result (nand self.new.bank.sizes.page self.new.bank.memory.now self.new.lost self.new.bank.supply) }
        ensures exact { outcome result (self.new.bank.memory.now, self.new.lost) self.new.bank.supply ≡ nand_erase self.old.bank.sizes.page self.old.bank.memory.now self.old.lost self.old.bank.supply block }
        ensures same { self.new.bank.sizes.page ≡ self.old.bank.sizes.page }
    {
        self.bank.locate(Place { block, offset: 0 }, 0)?;
        let done = self.bank.clear(block);
        flag_wiped(&mut self.lost, block, done);
        done?;
        Ok(())
    }

    fn arm(&mut self, steps: usize, fault: u8) -> Result<(), Refusal>
        ensures met { Armed (nand self.old.bank.sizes.page self.old.bank.memory.now self.old.lost self.old.bank.supply) result (nand self.new.bank.sizes.page self.new.bank.memory.now self.new.lost self.new.bank.supply) }
        ensures exact { outcome result (self.new.bank.memory.now, self.new.lost) self.new.bank.supply ≡ nand_arm self.old.bank.memory.now self.old.lost self.old.bank.supply steps fault }
        ensures same { self.new.bank.sizes.page ≡ self.old.bank.sizes.page }
    {
        self.bank.arm(steps, fault)
    }

    fn restart(&mut self)
        ensures met { Restarted (nand self.old.bank.sizes.page self.old.bank.memory.now self.old.lost self.old.bank.supply) (nand self.new.bank.sizes.page self.new.bank.memory.now self.new.lost self.new.bank.supply) }
        ensures exact { (self.new.bank.memory.now ≡ self.old.bank.memory.now) × (self.new.bank.sizes.page ≡ self.old.bank.sizes.page) × (self.new.lost ≡ self.old.lost) × (self.new.bank.supply ≡ Supply.Steady) }
    {
        self.bank.power_up();
    }

    ghost sane = { λ flash. nand_sane flash.bank.sizes.page flash.bank.sizes.block flash.bank.some flash.eight flash.bank.few flash.bank.memory.now flash.lost flash.bank.supply };
}
