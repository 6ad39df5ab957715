// What a walk of a block met.
ghost use Rattle.std.specs.Prelude.{◌≡◌, ◌+◌, ◌-◌, ◌^◌, min, None, IsSome};
ghost use Rattle.nodes.specs.Offences.{offence_of};
ghost use Rattle.nodes.specs.Views.{item_shown};
ghost use Rattle.trials.specs.Numbers.{offence_number};

use flash::refusal::Refusal;
use nodes::reader::Found;

// How many items were met, where the last of them stands, and the first offence.
#[derive(Clone, Copy, Default)]
pub struct Met {
    pub items: usize,
    pub last: usize,
    pub offence: Option<Refusal>,
}

impl Met {
    // What was met with one more item.
    pub fn with(self, found: &Found<'_>) -> Met
        ensures items { result.items ≡ min (self.items + 1) (2 ^ 64 - 1) }
        ensures last { result.last ≡ found.now.place.offset }
        ensures first { IsSome self.offence → result.offence ≡ self.offence }
        ensures offence { self.offence ≡ None → result.offence ≡ offence_of (item_shown found.now.item) }
    {
        Met {
            items: self.items.saturating_add(1),
            last: found.place.offset,
            // an item is judged only while no offence was found
            offence: match self.offence {
                Some(first) => Some(first),
                None => found.item.offence(),
            },
        }
    }
    // The number of the first offence, 0 where there is none.
    pub fn offence_number(self) -> u8
        ensures { result ≡ offence_number self.offence }
    {
        self.offence.map_or(0, u8::from)
    }
}
