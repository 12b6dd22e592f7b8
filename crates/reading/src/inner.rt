// INNER: for the programs that read a file to a fixed buffer.
ghost use Rattle.std.specs.Prelude.{◌≡◌, ◌≤◌, length, take};
ghost use Rattle.std.specs.Io.KnownBytes.{Consumes};

use std::io::Read;

// Reads to the front of `bytes` until it is full, the input ends or a read fails, and tells how many bytes were read.
pub fn read_full<R: Read>(from: &mut R, bytes: &mut [u8]) -> usize
    ensures within { result ≤ length bytes.new }
    ensures exact { result ≡ length (take result bytes.new) }
    ensures in_order { Consumes (R.remaining from.old) (R.remaining from.new) (take result bytes.new) }
{
    let mut done: usize = 0;
    while done < bytes.len() {
        match from.read(&mut bytes[done..]) {
            Ok(0) | Err(_) => break,
            Ok(n) => done += n,
        }
    }
    done
}
