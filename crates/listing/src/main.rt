// Reads one stored file on standard input, at most 65,536 bytes, and prints its listing, `refused N P` for a bad file, or `too long`.
// An input that cannot be read on ends there; where the output cannot be written, the program ends with an error.
#![tactic(auto)]

ghost use Rattle.std.specs.Prelude.{◌≤◌, length};
ghost use Rattle.listing.specs.Listing.{longest, most_codes, longest_text, Page};

use blocks::inner::readings;
use blocks::{BLOCK_BYTES, BLOCK_CODES, read};
use reading::inner::read_full;
use std::io;
use text::{LONGEST_HEAD, LONGEST_PATH, list_text, refused_text};

// The most blocks of a file, their bytes, the codes that they hold at most, and the bytes of the text of those.
const MOST_BLOCKS: usize = 128;

const LONGEST: usize = MOST_BLOCKS * BLOCK_BYTES;

const MOST_CODES: usize = MOST_BLOCKS * BLOCK_CODES;

const LONGEST_TEXT: usize = LONGEST_HEAD + LONGEST_PATH * MOST_CODES;

// The text of a file at the front of `text`, and its length.
fn page(bytes: &[u8], codes: &mut [u32], text: &mut [u8]) -> usize
    requires { (length bytes.now ≤ longest) × (most_codes ≤ length codes.old) × (longest_text ≤ length text.old) }
    ensures { Page bytes.now text.old result text.new }
{
    let (answer, depth) = readings::told(read(bytes, codes));
    if answer.number != 0 {
        return refused_text(answer.number, answer.place, text).unwrap();
    }
    list_text(depth, &codes[..answer.place as usize], text).unwrap()
}

fn main(rt: HostRuntime) -> io::Result<()> {
    let mut bytes = [0u8; LONGEST + 1];
    let n = read_full(&mut rt.stdin(), &mut bytes);
    if LONGEST < n {
        return rt.write_all(b"too long\n");
    }
    let mut codes = [0u32; MOST_CODES];
    let mut text = [0u8; LONGEST_TEXT];
    let size = page(&bytes[..n], &mut codes, &mut text);
    rt.write_all(&text[..size])
}
