//! The words of the generator of random orders.

ghost use Rattle.std.specs.Prelude.{◌≡◌, ℕ, ◌+◌, slice_index};

use rand_xoshiro::Xoshiro256PlusPlus;
use rand_xoshiro::rand_core::SeedableRng;
use rand_xoshiro::rand_core::utils::NextWord;

/// The generator's words from one of them on. The next four are drawn ahead, so that a place is
/// there without a copy of the generator.
#[derive(Drop)]
pub struct Words {
    next: [u64; 4],
    generator: Xoshiro256PlusPlus,
}

impl Words {
    ghost use Rattle.write_order.specs.Ahead.{words_after};

    /// The words of this seed, from the first on.
    pub fn new(seed: u64) -> Words
        ensures { result ≡ words_after seed 0 }
    {
        let mut generator = Xoshiro256PlusPlus::seed_from_u64(seed);
        let next = [
            generator.next_word(),
            generator.next_word(),
            generator.next_word(),
            generator.next_word(),
        ];
        Words { next, generator }
    }

    /// The next four words.
    pub fn place(&self) -> [u64; 4]
        ensures { result ≡ self.now.next }
    {
        self.next
    }

    /// The next word.
    pub fn first(&self) -> u64
        ensures { result ≡ slice_index self.now.next 0 }
    {
        self.next[0]
    }

    /// Goes on by one word.
    pub fn advance(&mut self)
        ensures { (seed n : ℕ) → self.old ≡ words_after seed n → self.new
            ≡ words_after seed (n + 1) }
    {
        let [_, second, third, fourth] = self.next;
        self.next = [second, third, fourth, self.generator.next_word()];
    }
}
