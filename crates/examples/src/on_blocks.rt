// Stored blocks: lists written, their check, and read back.
use blocks::inner::readings;
use blocks::{check_blocks, read, stored_volume, write};
use printing::inner::print::{Items, Numbers, told};
use std::io;

// The word whose first byte is p; 0 where the bytes end before it does.
fn word(bytes: &[u8], p: usize) -> u32 {
    match bytes.get(p..) {
        Some([b0, b1, b2, b3, ..]) => u32::from_le_bytes([*b0, *b1, *b2, *b3]),
        _ => 0,
    }
}

// What the calls on a file tell of it, with the check of its first block, and the list read back.
fn told_of(rt: &impl Print, bytes: &[u8]) -> io::Result<()> {
    let mut codes = [0u32; 8];
    let blocks = told(check_blocks(bytes));
    let volume = told(stored_volume(bytes));
    print!(rt;
        "check A {} B {} blocks: {blocks} volume: {volume}",
        word(bytes, 504),
        word(bytes, 508)
    )?;
    let found = read(bytes, &mut codes);
    let (answer, depth) = readings::told(found);
    print!(rt; " read: {} depth {depth}", Numbers(answer))?;
    if let Ok(read) = found {
        print!(rt; " {}", Items(codes.get(..read.leaves).unwrap_or(&[])))?;
    }
    println!(rt; "")
}

// A list written to a buffer, with what is said of its room, and what is told of the buffer then.
fn stored(
    rt: &impl Print,
    depth: u32,
    list: &[u32],
    room: &str,
    bytes: &mut [u8],
) -> io::Result<()> {
    let answer = told(write(depth, list, bytes));
    println!(rt; "write {depth} {}{room}: {answer}", Items(list))?;
    told_of(rt, bytes)
}

pub fn run(rt: &impl Print) -> io::Result<()> {
    // depth 3: the empty list has A = 5 and B = 623, [559] has A = 565 and B = 68944
    stored(rt, 3, &[], "", &mut [0; 512])?;
    stored(rt, 3, &[559], "", &mut [0; 512])?;
    // refused, nothing is written: a block of zeros is no sound block
    stored(rt, 11, &[], "", &mut [0; 512])?;
    stored(rt, 3, &[559, 559], "", &mut [0; 512])?;
    stored(rt, 3, &[559], " room 511", &mut [0; 511])
}
