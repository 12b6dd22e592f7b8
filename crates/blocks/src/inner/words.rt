// INNER: words of a block, read and written where they stand among a file's bytes.
ghost use Rattle.std.specs.Prelude.{◌≡◌, ◌+◌, ◌*◌, ◌/◌, ◌%◌, ◌<◌, ◌≤◌, length};
ghost use Rattle.blocks.specs.Block.{block_bytes, block_codes, four_bytes, word};
ghost use Rattle.blocks.specs.Inner.{stored};

use crate::{BLOCK_BYTES, BLOCK_CODES, FIRST_CODE};

// The four bytes from place p on, the lowest first.
fn four_bytes(bytes: &[u8], p: usize) -> u32
    requires { p + 4 ≤ length bytes.now }
    ensures { result ≡ four_bytes bytes.now p }
{
    u32::from_le_bytes([bytes[p], bytes[p + 1], bytes[p + 2], bytes[p + 3]])
}

// Word w of block i.
pub fn word_at(bytes: &[u8], i: usize, w: usize) -> u32
    requires { (block_bytes * i + block_bytes ≤ length bytes.now) × (w < 128) }
    ensures { result ≡ word bytes.now i w }
{
    four_bytes(bytes, BLOCK_BYTES * i + 4 * w)
}

// Code j of a file.
pub fn code_at(bytes: &[u8], j: usize) -> u32
    requires { block_bytes * (j / block_codes) + block_bytes ≤ length bytes.now }
    ensures { result ≡ word bytes.now (j / block_codes) (4 + j % block_codes) }
{
    word_at(bytes, j / BLOCK_CODES, FIRST_CODE + j % BLOCK_CODES)
}

// Word w of block i becomes x.
pub fn store_word(bytes: &mut [u8], i: usize, w: usize, x: u32)
    requires { (block_bytes * i + block_bytes ≤ length bytes.old) × (w < 128) }
    ensures { bytes.new ≡ stored bytes.old (block_bytes * i + 4 * w) x }
{
    let p = BLOCK_BYTES * i + 4 * w;
    bytes[p..p + 4].copy_from_slice(&x.to_le_bytes());
}
