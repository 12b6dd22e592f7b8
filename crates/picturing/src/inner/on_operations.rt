// Join, intersection and difference of bits, each with so much room for its result, which holds ones before the call.
use cells::Refusal;
use plain::{intersect_bits, join_bits, subtract_bits};
use printing::inner::print::{Items, Written, places};
use sets::Op;
use std::io;

fn call(op: Op, depth: u32, a: &[u8], b: &[u8], out: &mut [u8]) -> Result<usize, Refusal> {
    match op {
        Op::Join => join_bits(depth, a, b, out),
        Op::Intersect => intersect_bits(depth, a, b, out),
        Op::Subtract => subtract_bits(depth, a, b, out),
    }
}

fn made(rt: &impl Print, op: Op, depth: u32, a: &[u8], b: &[u8], room: usize) -> io::Result<()> {
    let mut space = [255u8; 8];
    let out = places(&mut space, room);
    let answer = call(op, depth, a, b, out);
    let room = out.len();
    println!(rt;
        "{op}_bits {depth} {} {} room {room}: {}",
        Items(a),
        Items(b),
        Written(answer, out)
    )
}

// The three calls on the same inputs.
fn each(rt: &impl Print, depth: u32, a: &[u8], b: &[u8], room: usize) -> io::Result<()> {
    made(rt, Op::Join, depth, a, b, room)?;
    made(rt, Op::Intersect, depth, a, b, room)?;
    made(rt, Op::Subtract, depth, a, b, room)
}

pub fn run(rt: &impl Print) -> io::Result<()> {
    // bits 0 and 3 with bits 0 and 1; at depth 0 the spare bits are not read, and are written 0
    each(rt, 1, &[9], &[3], 1)?;
    each(rt, 0, &[255], &[254], 1)?;
    // refused: the depth; the first bits, the second, and the room a byte too short, with the bytes needed
    each(rt, 7, &[], &[], 0)?;
    each(rt, 1, &[], &[3], 1)?;
    each(rt, 1, &[9], &[], 1)?;
    each(
        rt,
        2,
        &[9, 0, 0, 0, 0, 0, 0, 0],
        &[3, 0, 0, 0, 0, 0, 0, 0],
        7,
    )
}
