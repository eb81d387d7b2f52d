// The memory of a case: a list of the sets that are expected of a call, and the slots that it is lent.
use crate::words;
use sets::Set;

// More than a graph has maximal k-plexes that is compared with trying all sets.
const MOST_SETS: usize = 16384;

// How many slots more than needed.
pub const EXTRA_SLOTS: usize = 3;

const LIST_WORDS: usize = MOST_SETS * sets::WORDS;

const SLOT_WORDS: usize = (MOST_SETS + EXTRA_SLOTS) * sets::WORDS;

// A list of sets, as slots hold one. A set for which there is no room is lost.
#[derive(Drop)]
pub struct List {
    words: [u64; LIST_WORDS],
    count: usize,
}

impl List {
    pub fn clear(&mut self) {
        self.count = 0;
    }

    pub fn push(&mut self, s: Set) {
        if self.count < MOST_SETS {
            words::store(&mut self.words, self.count, s);
            self.count += 1;
        }
    }

    // The sets that are kept move to the front.
    pub fn retain<F: Fn(Set) -> bool>(&mut self, is_kept: F)
        requires { F.IsAlwaysCallable is_kept }
    {
        let count = self.count;
        self.clear();
        for i in 0..count {
            let s = words::at(&self.words, i);
            if is_kept(s) {
                self.push(s);
            }
        }
    }

    // The list becomes that of these masks.
    pub fn set_masks(&mut self, masks: &[u64]) {
        self.clear();
        for mask in masks {
            self.push(Set::from(*mask));
        }
    }

    pub fn sets(&self) -> &[u64] {
        words::front(&self.words, self.count)
    }
}

// It lies on the stack. Where a caller makes several calls that need one, these are not inlined: its frame would hold one too, unused.
#[derive(Drop)]
pub struct Memory {
    pub expected: List,
    pub slots: [u64; SLOT_WORDS],
}

impl Memory {
    pub fn new() -> Memory {
        let expected = List {
            words: [0; LIST_WORDS],
            count: 0,
        };
        Memory {
            expected,
            slots: [0; SLOT_WORDS],
        }
    }
}
