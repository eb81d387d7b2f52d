// Sets of vertices, and every operation on one. This is the only crate with bit arithmetic: the others
// touch a set through its methods, and their contracts speak of its mask. What ==, <, <=, min and max
// of two sets say of their masks are the laws same_mask, lt_mask, le_mask, min_mask and max_mask.
#![tactic(auto)]

ghost use Rattle.std.specs.Prelude.{◌≡◌, ◌^◌, ◌*◌, ◌<◌, ◌≤◌, min, max, cond, eqb, ltb, length, set};
ghost use Rattle.std.specs.Int.Bits.{bit_and, bit_or};
ghost use Rattle.sets.specs.Set.{bit, has, size, subset, with, minus, without, full};
ghost use Rattle.sets.specs.Words.{width, per_set, mask, masks, word_of, Lowest};
ghost use Rattle.sets.specs.Graph.{row};

// A set of vertices: v is a member where the bit of value 2^v is set. Sets are equal, and come in order, as their masks do.
#[derive(Clone, Copy, PartialEq, Eq, PartialOrd, Ord)]
pub struct Set {
    pub word: u64,
}

// The most vertices that a set can have.
pub const WIDTH: usize = 64;

// The words of a set.
pub const WORDS: usize = 1;

// The words of a table with a set for each vertex.
pub const TABLE: usize = WIDTH * WORDS;

impl Set {
    // No vertex.
    pub fn empty() -> Set
        ensures { mask result ≡ 0 }
    {
        Set { word: 0 }
    }

    // The vertices below n.
    pub fn full(n: usize) -> Set
        requires { (1 ≤ n) × (n ≤ width) }
        ensures { mask result ≡ full n }
    {
        let word = u64::MAX >> (WIDTH - n);
        Set { word }
    }

    // The set of v alone.
    pub fn single(v: usize) -> Set
        requires { v < width }
        ensures { mask result ≡ 2 ^ v }
    {
        let word = 1u64 << v;
        Set { word }
    }

    // Is v a member?
    pub fn has(self, v: usize) -> bool
        requires { v < width }
        ensures { result ≡ has (mask self) v }
    {
        (self.word >> v) & 1 == 1
    }

    // How many members the set has.
    pub fn size(self) -> usize
        ensures { (result ≡ size (mask self)) × (result ≤ width) }
    {
        self.word.count_ones() as usize
    }

    // Has the set no member?
    pub fn is_empty(self) -> bool
        ensures { result ≡ eqb (mask self) 0 }
    {
        self.word == 0
    }

    // Is every member one of t?
    pub fn within(self, t: Set) -> bool
        ensures { result ≡ subset (mask self) (mask t) }
    {
        self.meet(t) == self
    }

    // Is every member below n?
    pub fn below(self, n: usize) -> bool
        requires { (1 ≤ n) × (n ≤ width) }
        ensures { result ≡ ltb (mask self) (2 ^ n) }
    {
        self <= Set::full(n)
    }

    // The members that t has too.
    pub fn meet(self, t: Set) -> Set
        ensures { mask result ≡ bit_and (mask self) (mask t) }
    {
        Set {
            word: self.word & t.word,
        }
    }

    // The members, and those of t.
    pub fn join(self, t: Set) -> Set
        ensures { mask result ≡ bit_or (mask self) (mask t) }
    {
        Set {
            word: self.word | t.word,
        }
    }

    // The members that t lacks.
    pub fn minus(self, t: Set) -> Set
        ensures { mask result ≡ minus (mask self) (mask t) }
    {
        Set {
            word: self.word & !t.word,
        }
    }

    // The set and one more vertex.
    pub fn with(self, v: usize) -> Set
        requires { v < width }
        ensures { mask result ≡ with (mask self) v }
    {
        self.join(Set::single(v))
    }

    // The set and one vertex less.
    pub fn without(self, v: usize) -> Set
        requires { v < width }
        ensures { mask result ≡ without (mask self) v }
    {
        self.minus(Set::single(v))
    }

    // The set, without v where b holds. No branch is needed for it.
    pub fn without_if(self, v: usize, b: bool) -> Set
        requires { v < width }
        ensures { mask result ≡ cond b (without (mask self) v) (mask self) }
    {
        let word = (b as u64) << v;
        self.minus(Set { word })
    }

    // 1 where v is a member, else 0.
    pub fn indicator(self, v: usize) -> usize
        requires { v < width }
        ensures { result ≡ bit (mask self) v }
    {
        ((self.word >> v) & 1) as usize
    }

    // The lowest member.
    pub fn lowest(self) -> usize
        requires { 0 < mask self }
        ensures { Lowest (mask self) result }
    {
        self.word.trailing_zeros() as usize
    }

    // The set without its lowest member v: the step of a walk through the members.
    pub fn rest(self, v: usize) -> Set
        requires { Lowest (mask self) v }
        ensures { mask result ≡ without (mask self) v }
    {
        let word = self.word & (self.word - 1);
        Set { word }
    }

    // Word j of the set, counted from the lowest.
    pub fn word(self, j: usize) -> u64
        requires { j < per_set }
        ensures { result ≡ word_of self j }
    {
        self.word
    }
}

// The set whose mask is the word.
impl From<u64> for Set {
    ghost from_gives = { λ w s. mask s ≡ w };

    fn from(word: u64) -> Set {
        Set { word }
    }
}

// How many sets the words hold.
pub fn count(words: &[u64]) -> usize
    ensures { result ≡ length (masks words.now) }
{
    words.len() / WORDS
}

// The set at position i: a row of a graph, or a slot.
pub fn get(words: &[u64], i: usize) -> Set
    requires { i < length (masks words.now) }
    ensures { mask result ≡ row (masks words.now) i }
{
    Set {
        word: words[i * WORDS],
    }
}

// Stores s at position i.
pub fn put(words: &mut [u64], i: usize, s: Set)
    requires { i < length (masks words.old) }
    ensures { masks words.new ≡ set (masks words.old) i (mask s) }
{
    words[i * WORDS] = s.word;
}

// The word at which position n starts: the words before it hold n sets.
pub fn offset(words: &[u64], n: usize) -> usize
    requires { n ≤ length (masks words.now) }
    ensures { result ≡ n * per_set }
{
    n * WORDS
}
