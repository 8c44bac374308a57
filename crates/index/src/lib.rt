// Where items stand that are sought by their mixes: digital search trees, one for each remainder of a mix.
// They stand in an array's words, each 0 or 1 + an item, and not in boxes, a map or options: the library has no heap, and in fixed
// memory an option takes two words, all of which are cleared on each call.
#![tactic(auto)]

ghost use Rattle.std.specs.Prelude.{◌≡◌, ◌/◌};
ghost use Rattle.index.specs.Paths.{slot_count, slot, under};

use limits::SLOTS;

// A search by a mix: the word that it has come to, and the bits that it goes by from there.
#[derive(Clone, Copy)]
pub struct Search {
    pub at: usize,
    pub bits: u64,
}

impl Search {
    // For a mix it begins at the word of its tree.
    pub fn new(m: u64) -> Self
        ensures at { result.at ≡ slot m }
        ensures bits { result.bits ≡ m / slot_count }
    {
        Search {
            at: (m % SLOTS as u64) as usize,
            bits: m / SLOTS as u64,
        }
    }

    // Past an item it goes on to the word under it that the next bit chooses.
    pub fn past(self, item: u32) -> Self
        ensures at { result.at ≡ under item self.bits }
        ensures bits { result.bits ≡ self.bits / 2 }
    {
        Search {
            at: SLOTS + 2 * (item as usize) + (self.bits % 2) as usize,
            bits: self.bits / 2,
        }
    }
}
