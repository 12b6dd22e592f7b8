// Writes a sample record as a stored file to standard output, of a site of depth 3: our own or, with any argument, one that arrives from a machine whose origin
// lies 4 voxels to the east and 2 to the north of ours.
#![tactic(auto)]

use blocks::write;
use std::env::{Env, FillError};
use std::io;

fn put(rt: &impl Print, list: &[u32]) -> io::Result<()> {
    let mut bytes = [0u8; 512];
    if write(3, list, &mut bytes).is_ok() {
        rt.write_all(&bytes)?;
    }
    Ok(())
}

// Whether the program was given an argument, be it text or not.
fn has_argument(rt: &impl Env) -> bool {
    match rt.arg(1, &mut []) {
        Err(FillError::NotPresent) => false,
        _ => true,
    }
}

fn main(rt: HostRuntime) -> io::Result<()> {
    if has_argument(&rt) {
        // r00 r01 r02 r03
        put(&rt, &[64, 65, 66, 67])
    } else {
        // r0 r10 r110 r111 r12 r2
        put(&rt, &[8, 72, 584, 585, 74, 10])
    }
}
