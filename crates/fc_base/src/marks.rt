//! Marks: a bit for each write of the widest window.

ghost use Rattle.std.specs.Prelude.{◌≡◌, ◌≤◌, ◌<◌, ◌^◌, ◌==◌, ◌&&◌, ◌↔◌, ℕ, length, if◌then◌else◌, true, false};
ghost use Rattle.std.specs.Int.{bit_at};
ghost use Rattle.std.specs.List.{AllByRecursion};

use crate::limits::MAX_WINDOW;
use std::marker::Model;

/// A bit for each of [`MAX_WINDOW`](crate::MAX_WINDOW) numbers, from 0: 64 of them a word, the
/// lowest bit first.
#[derive(Clone, Copy, Debug, PartialEq, Eq)]
pub struct Marks {
    words: [u64; 4],
}

impl Model for Marks {
    ghost use Rattle.std.specs.Prelude.{ℕ, List};

    ghost Value = { List ℕ };

    ghost view = { λ m. m.words };

    ghost inverse = { λ words. record { words = words } };
}

impl Marks {
    ghost use Rattle.fc_base.specs.Marks.{is_marked, ends_by, marked_count};

    /// No bit is set.
    pub const NONE: Marks = Marks { words: [0; 4] };

    /// The marks of these words.
    pub fn from_words(words: [u64; 4]) -> Marks
        ensures { result ≡ words }
    {
        Marks { words }
    }

    /// The words of the marks.
    pub fn words(&self) -> [u64; 4]
        ensures value { result ≡ self.now }
        ensures four { length result ≡ 4 }
        ensures range { AllByRecursion (λ word. word < 2 ^ 64) result }
    {
        words_in_range(self.words)
    }

    /// Whether a bit is set.
    #[tactic(auto, unfolding(crate::specs::Marks::is_marked))]
    pub fn has(&self, bit: usize) -> bool
        requires { bit < MAX_WINDOW }
        ensures { result ≡ is_marked self.now bit }
    {
        (self.words[bit / 64] >> (bit % 64)) & 1 == 1
    }

    /// Sets a bit.
    pub fn set(&mut self, bit: usize)
        requires { bit < MAX_WINDOW }
        ensures { (i : ℕ) → i < MAX_WINDOW →
            is_marked self.new i ≡ (if i == bit then true else is_marked self.old i) }
    {
        self.words[bit / 64] |= 1 << (bit % 64);
    }

    /// Clears a bit.
    pub fn clear(&mut self, bit: usize)
        requires { bit < MAX_WINDOW }
        ensures { (i : ℕ) → i < MAX_WINDOW →
            is_marked self.new i ≡ (if i == bit then false else is_marked self.old i) }
    {
        self.words[bit / 64] &= !(1 << (bit % 64));
    }

    /// How many bits are set.
    pub fn count(&self) -> u32
        ensures value { result ≡ marked_count self.now }
        ensures range { result ≤ MAX_WINDOW }
    {
        self.words[0].count_ones()
            + self.words[1].count_ones()
            + self.words[2].count_ones()
            + self.words[3].count_ones()
    }

    /// Whether no bit from `end` on is set.
    pub fn ends_by(&self, end: u64) -> bool
        ensures { result ≡ ends_by end self.now }
    {
        all_four(
            word_ends_by(self.words[0], end),
            word_ends_by(self.words[1], end.saturating_sub(64)),
            word_ends_by(self.words[2], end.saturating_sub(128)),
            word_ends_by(self.words[3], end.saturating_sub(192)),
        )
    }
}

/// Whether no bit of the word from `end` on is set.
fn word_ends_by(word: u64, end: u64) -> bool
    ensures { (result ≡ true) ↔ ((i : ℕ) → end ≤ i → i < 64 → bit_at word i ≡ 0) }
{
    end >= 64 || word >> end == 0
}

fn all_four(a: bool, b: bool, c: bool, d: bool) -> bool
    ensures { result ≡ (a && b && c && d) }
{
    a && b && c && d
}

/// A word is below 2^64, which a clause doesn't know of a field.
fn in_range(word: u64) -> u64
    ensures value { result ≡ word }
    ensures range { result < 2 ^ 64 }
{
    word
}

/// So are four words.
fn words_in_range(words: [u64; 4]) -> [u64; 4]
    ensures value { result ≡ words }
    ensures four { length result ≡ 4 }
    ensures range { AllByRecursion (λ word. word < 2 ^ 64) result }
{
    let [a, b, c, d] = words;
    [in_range(a), in_range(b), in_range(c), in_range(d)]
}
