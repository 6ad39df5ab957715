// What was asked for on a block.
ghost use Rattle.std.specs.Prelude.{◌≡◌, ◌+◌, ◌-◌, ◌^◌, ◌++◌, [], ◌∷◌, min, OnOk, OnErr, if◌then◌else◌, is_ok};

use flash::refusal::Refusal;
use std::alloc::{AllocError, Global};

// An item that was asked for.
#[derive(Clone, Copy)]
pub struct Asked {
    pub offset: usize,
    pub what: &'static str,
}

// All that was asked for, in order, and where the next item goes.
#[derive(Drop)]
pub struct Log {
    pub asked: Vec<Asked>,
    pub end: usize,
}

impl Log {
    // The log of a block of which nothing was asked for yet.
    pub fn new(heap: Global) -> Log
        ensures asked { result.asked.items ≡ [] }
        ensures end { result.end ≡ 0 }
    {
        Log {
            asked: Vec::new(heap),
            end: 0,
        }
    }

    // Notes that n bytes were asked for at the end, which lies behind them if they were accepted.
    pub fn note(
        &mut self,
        what: &'static str,
        n: usize,
        answer: Result<(), Refusal>,
    ) -> Result<(), AllocError>
        ensures asked { OnOk result (self.new.asked.items ≡ self.old.asked.items ++ record { offset = self.old.end; what = what.entry } ∷ []) }
        ensures end { OnOk result (self.new.end ≡ (if is_ok answer then min (self.old.end + n) (2 ^ 64 - 1) else self.old.end)) }
        ensures err { OnErr result ((self.new.asked.items ≡ self.old.asked.items) × (self.new.end ≡ self.old.end)) }
    {
        self.asked.push(Asked {
            offset: self.end,
            what,
        })?;
        if answer.is_ok() {
            self.end = self.end.saturating_add(n);
        }
        Ok(())
    }
}

#[cfg(test)]
mod tests {
    use super::*;

    #[test]
    fn notes(rt: HostRuntime) -> Result<(), AllocError> {
        let mut log = Log::new(rt.alloc());
        log.note("first", 12, Ok(()))?;
        log.note("second", 8, Err(Refusal::NoPower))?;
        assert_eq!(rt; log.asked.len(), 2);
        assert_eq!(rt; log.asked[1].offset, 12);
        assert_eq!(rt; log.end, 12);
        Ok(())
    }
}
