// INNER: the check of a block, word by word.
ghost use Rattle.std.specs.Prelude.{◌≡◌, ℕ, ◌+◌};
ghost use Rattle.blocks.specs.Block.{check};

use crate::Sums;

impl Sums {
    // The check of no word.
    pub fn new() -> Sums
        ensures { (v : ℕ → ℕ) → result ≡ check v 0 }
    {
        Sums { a: 1, b: 0 }
    }

    // The check with the word x more.
    pub fn take(self, x: u32) -> Sums
        ensures { (v : ℕ → ℕ) (n : ℕ) → self ≡ check v n → x ≡ v n → result ≡ check v (n + 1) }
    {
        let a = self.a.wrapping_add(x);
        let b = self.b.wrapping_add(a);
        Sums { a, b }
    }
}
