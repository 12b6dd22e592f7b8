// How the tour reads a file, and prints an answer and a record.
ghost use Rattle.std.specs.Prelude.{◌≡◌, ◌≤◌, length, take};

use blocks::{BLOCK_BYTES, BLOCK_CODES, read};
use cells::{Answer, Refusal};
use reading::inner::read_full;
use records::Finding;
use records::inner::findings;
use std::env::Env;
use std::rt::Files;
use std::{fs, io};
use text::{LONGEST_HEAD, LONGEST_PATH, list_text};

// Room for eight blocks, for their codes, and for the text of those.
pub const BYTES: usize = 8 * BLOCK_BYTES;

pub const LEAVES: usize = 8 * BLOCK_CODES;

const LETTERS: usize = LONGEST_HEAD + LONGEST_PATH * LEAVES;

// The file that argument i names, at the front of `bytes`, and its length: 0 where it cannot be opened.
pub fn load(rt: &(impl Env + Files + Eprint), i: usize, bytes: &mut [u8]) -> usize
    ensures within { result ≤ length bytes.new }
    ensures exact { result ≡ length (take result bytes.new) }
{
    let mut name = [0u8; 4096];
    let n = rt.arg(i, &mut name).unwrap_or(0);
    let Ok(path) = str::from_utf8(&name[..n]) else {
        let _ = eprintln!(rt; "argument {i}: a name that is not UTF-8");
        return 0;
    };
    match fs::open(rt, path) {
        Ok(mut file) => read_full(&mut file, bytes),
        Err(error) => {
            let _ = eprintln!(rt; "{path}: {error}");
            0
        }
    }
}

// A call's answer, after what was asked.
pub fn tell(rt: &impl Print, asked: &str, told: impl Into<Answer>) -> io::Result<()> {
    let answer: Answer = told.into();
    println!(rt; "{asked}: {answer}")
}

// What a lookup tells: its answer, and the level beside it.
pub fn tell_found(rt: &impl Print, asked: &str, found: Result<Finding, Refusal>) -> io::Result<()> {
    let (answer, level) = findings::told(found);
    println!(rt; "{asked}: {answer} level {level}")
}

// The listing of a stored file under its title, or why it has none.
pub fn show(rt: &impl Print, title: &str, file: &[u8]) -> io::Result<()> {
    println!(rt; "{title}")?;
    let mut codes = [0u32; LEAVES];
    let mut text = [0u8; LETTERS];
    let found = match read(file, &mut codes) {
        Ok(found) => found,
        Err(refusal) => return tell(rt, "not read", refusal),
    };
    match list_text(found.depth, &codes[..found.leaves], &mut text) {
        Ok(size) => rt.write_all(&text[..size]),
        Err(refusal) => tell(rt, "not listed", refusal),
    }
}
