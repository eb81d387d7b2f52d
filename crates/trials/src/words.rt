// Buffers of sets. Nothing lies beyond the end of one: a set there is empty, and what is stored there is lost.
ghost use Rattle.std.specs.Prelude.{◌≤◌, length};

use sets::Set;

// What each word of slots and rows holds before a call.
pub const GARBAGE: u64 = 0xcafebabecafebabe;

pub fn at(words: &[u64], i: usize) -> Set {
    if i < sets::count(words) {
        sets::get(words, i)
    } else {
        Set::empty()
    }
}

pub fn store(words: &mut [u64], i: usize, s: Set) {
    if i < sets::count(words) {
        sets::put(words, i, s);
    }
}

// The word at which position n starts, or the end where there are fewer sets.
fn end(words: &[u64], n: usize) -> usize
    ensures { result ≤ length words.now }
{
    if sets::count(words) < n {
        return words.len();
    }
    sets::offset(words, n)
}

// The first n sets, or all where there are fewer.
pub fn front(words: &[u64], n: usize) -> &[u64] {
    &words[..end(words, n)]
}

pub fn front_mut(words: &mut [u64], n: usize) -> &mut [u64] {
    let end = end(words, n);
    &mut words[..end]
}

// The sets behind the first n.
pub fn behind(words: &[u64], n: usize) -> &[u64] {
    &words[end(words, n)..]
}

// Is every word x?
pub fn all_are(words: &[u64], x: u64) -> bool {
    words.iter().all(|word| *word == x)
}

// Are these the first sets, and lies garbage behind them?
pub fn holds(words: &[u64], first: &[u64]) -> bool {
    words
        .strip_prefix(first)
        .is_some_and(|rest| all_are(rest, GARBAGE))
}
