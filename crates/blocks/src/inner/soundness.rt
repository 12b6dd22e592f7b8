// INNER: whether the blocks of a file are sound, word by word.
ghost use Rattle.std.specs.Prelude.{◌≡◌, ◌+◌, ◌-◌, ◌*◌, ◌<◌, ◌≤◌, true, length, nat_eq};
ghost use Rattle.records.specs.Fault.{all_from};
ghost use Rattle.blocks.specs.Block.{block_bytes, block_codes, word, check, right_count, right_check, sound_block, blocks, whole, codes};
ghost use Rattle.blocks.specs.Inner.{Sound, FirstUnsound};

use crate::inner::words::word_at;
use crate::{BLOCK_CODES, CHECK_A, CHECK_B, FIRST_CODE, Sums};
use cells::DEEPEST;

// The check of the words of block i before it.
pub fn sum_up(bytes: &[u8], i: usize) -> Sums
    requires { block_bytes * i + block_bytes ≤ length bytes.now }
    ensures { result ≡ check (word bytes.now i) 126 }
{
    let mut sums = Sums::new();
    for w in 0..CHECK_A {
        sums = sums.take(word_at(bytes, i, w));
    }
    sums
}

// Whether block i ends with its check.
pub fn right_check(bytes: &[u8], i: usize) -> bool
    requires { block_bytes * i + block_bytes ≤ length bytes.now }
    ensures { result ≡ right_check (word bytes.now i) }
{
    let sums = sum_up(bytes, i);
    word_at(bytes, i, CHECK_A) == sums.a && word_at(bytes, i, CHECK_B) == sums.b
}

// Whether block i of n may hold k codes.
#[tactic(auto, unfolding(crate::specs::Block::right_count))]
pub fn right_count(n: usize, i: usize, k: usize) -> bool
    requires { i < n }
    ensures { result ≡ right_count n i k }
{
    if i + 1 < n {
        return k == BLOCK_CODES;
    }
    k <= BLOCK_CODES && (0 < k || n == 1)
}

// Whether the words of block i after its k codes are 0.
pub fn unused_zero(bytes: &[u8], i: usize, k: usize) -> bool
    requires { (block_bytes * i + block_bytes ≤ length bytes.now) × (k ≤ block_codes) }
    ensures { result ≡ all_from (λ w. nat_eq (word bytes.now i w) 0) (4 + k) (block_codes - k) }
{
    for w in FIRST_CODE + k..CHECK_A {
        if word_at(bytes, i, w) != 0 {
            return false;
        }
    }
    true
}

// Whether every word of block i of n is right, block 0's depth being given.
#[tactic(auto, using(crate::proofs::Sound::right_most), unfolding(crate::specs::Block::sound_block))]
pub fn is_sound(bytes: &[u8], i: usize, n: usize, depth: u32) -> bool
    requires { (block_bytes * n ≤ length bytes.now) × (i < n) }
    ensures { result ≡ sound_block (word bytes.now i) i n depth }
{
    let index = word_at(bytes, i, 0) as usize;
    let number = word_at(bytes, i, 1) as usize;
    let d = word_at(bytes, i, 2);
    let k = word_at(bytes, i, 3) as usize;
    index == i
        && number == n
        && d <= DEEPEST
        && d == depth
        && right_count(n, i, k)
        && unused_zero(bytes, i, k)
        && right_check(bytes, i)
}

// The first unsound block of n, a whole file's.
pub fn first_unsound(bytes: &[u8], n: usize) -> Option<usize>
    requires { (whole bytes.now ≡ true) × (n ≡ blocks bytes.now) }
    ensures { FirstUnsound bytes.now result }
{
    let depth = word_at(bytes, 0, 2);
    for i in 0..n {
        if !is_sound(bytes, i, n, depth) {
            return Some(i);
        }
    }
    None
}

// How many codes the n blocks of a sound file hold.
pub fn leaves_of(bytes: &[u8], n: usize) -> usize
    requires { Sound bytes.now × (n ≡ blocks bytes.now) }
    ensures { result ≡ length (codes bytes.now) }
{
    BLOCK_CODES * (n - 1) + word_at(bytes, n - 1, 3) as usize
}
