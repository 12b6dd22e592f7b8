// The text of a listing and the line of a refusal, each to a buffer that it fills, or that is a byte too short.
use crate::inner::print::{Items, told};
use cells::Refusal;
use std::io;
use text::{list_text, refused_text};

// The room and the answer; and the text, where the buffer is filled.
fn shown(rt: &impl Print, answer: Result<usize, Refusal>, bytes: &[u8]) -> io::Result<()> {
    println!(rt; " room {}: {}", bytes.len(), told(answer))?;
    if answer.is_ok() {
        rt.write_all(bytes)?;
    }
    Ok(())
}

fn listed(rt: &impl Print, depth: u32, list: &[u32], bytes: &mut [u8]) -> io::Result<()> {
    print!(rt; "list_text {depth} {}", Items(list))?;
    let answer = list_text(depth, list, bytes);
    shown(rt, answer, bytes)
}

fn refused(rt: &impl Print, number: u32, place: u64, bytes: &mut [u8]) -> io::Result<()> {
    print!(rt; "refused_text {number} {place}")?;
    let answer = refused_text(number, place, bytes);
    shown(rt, answer, bytes)
}

pub fn run(rt: &impl Print) -> io::Result<()> {
    // the listing of one voxel; a byte less does not suffice
    listed(rt, 3, &[559], &mut [0; 31])?;
    listed(rt, 3, &[559], &mut [0; 30])?;
    // refused: a depth, and each fault of a list
    listed(rt, 11, &[7], &mut [0; 31])?;
    listed(rt, 3, &[7], &mut [0; 31])?;
    listed(rt, 3, &[559, 559], &mut [0; 31])?;
    listed(rt, 1, &[8, 9, 10, 11, 12, 13, 14, 15], &mut [0; 31])?;
    // the line of a refusal
    refused(rt, 9, 0, &mut [0; 12])?;
    refused(rt, 9, 0, &mut [0; 11])
}
