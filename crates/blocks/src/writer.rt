// The writer: a good list as stored blocks.
ghost use Rattle.std.specs.Prelude.{◌≡◌, ℕ, ◌+◌, ◌*◌, ◌^◌, ◌<◌, ◌≤◌, List, length};
ghost use Rattle.cells.specs.Refusals.{answer_of};
ghost use Rattle.records.specs.Writing.{stands};
ghost use Rattle.blocks.specs.Block.{block_bytes};
ghost use Rattle.blocks.specs.File.{blocks_of, plain, file_of};
ghost use Rattle.blocks.specs.Calls.{WriteOf};
ghost use Rattle.blocks.specs.Inner.{Placed, begun};

use crate::inner::words::store_word;
use crate::{BLOCK_BYTES, BLOCK_CODES, CHECK_A, CHECK_B, FIRST_CODE, Sums};
use cells::Refusal;
use records::check;

// How many blocks n codes take.
fn blocks_of(n: usize) -> usize
    ensures { result ≡ blocks_of n }
{
    n.div_ceil(BLOCK_CODES).max(1)
}

// Word w of block i of n, before the check.
fn plain_word(depth: u32, list: &[u32], n: usize, i: usize, w: usize) -> u32
    requires { Placed list.now n i × (w < 126) }
    ensures { result ≡ plain depth list.now i w }
{
    let at = BLOCK_CODES * i;
    match w {
        0 => i as u32,
        1 => n as u32,
        2 => depth,
        3 => (list.len() - at).min(BLOCK_CODES) as u32,
        _ => list.get(at + (w - FIRST_CODE)).copied().unwrap_or(0),
    }
}

// Block i of n, where the blocks before it are written.
fn put_block(depth: u32, list: &[u32], n: usize, i: usize, bytes: &mut [u8])
    requires { Placed list.now n i × (block_bytes * n ≤ length bytes.old) }
    ensures { (o : List ℕ) →
        bytes.old ≡ begun depth list.now o (block_bytes * i) →
        bytes.new ≡ begun depth list.now o (block_bytes * (i + 1)) }
{
    let mut sums = Sums::new();
    for w in 0..CHECK_A {
        let x = plain_word(depth, list, n, i, w);
        store_word(bytes, i, w, x);
        sums = sums.take(x);
    }
    store_word(bytes, i, CHECK_A, sums.a);
    store_word(bytes, i, CHECK_B, sums.b);
}

// All n blocks.
fn put_blocks(depth: u32, list: &[u32], n: usize, bytes: &mut [u8])
    requires { (n ≡ blocks_of (length list.now)) × (n < 2 ^ 32) × (block_bytes * n ≤ length bytes.old) }
    ensures { bytes.new ≡ stands (file_of depth list.now) bytes.old }
{
    for i in 0..n {
        put_block(depth, list, n, i, bytes);
    }
}

// A good list as stored blocks at the front of `bytes`: refused for the depth, the list, and where `bytes` is too short.
pub fn write(depth: u32, list: &[u32], bytes: &mut [u8]) -> Result<usize, Refusal>
    ensures { WriteOf depth list.now bytes.old (answer_of result) bytes.new }
{
    let count = check(depth, list)?;
    let n = blocks_of(count);
    let need = BLOCK_BYTES * n;
    if bytes.len() < need {
        return Err(Refusal::TooShort(need));
    }
    put_blocks(depth, list, n, bytes);
    Ok(need)
}
