// A tour of the main job: `tour OURS THEIRS` takes two stored files, our record and one that arrived from a machine with another origin. It lists both, moves
// theirs to our origin, joins the two, stores the join and lists it, tells the volumes, and looks two voxels up; then it shows two refusals.
#![tactic(auto)]

mod print;

use arrivals::{arrive, merge};
use blocks::{read, stored_volume};
use metres::Move;
use print::{BYTES, LEAVES, load, show, tell, tell_found};
use records::{lookup, volume};
use sets::intersect;
use std::io;

// The joined record in its file, and the volumes in voxels: of ours, of theirs where it was moved to, of the join and of the intersection.
fn report(rt: &impl Print, depth: u32, own: &[u32], moved: &[u32], file: &[u8]) -> io::Result<()> {
    let mut both = [0u32; LEAVES];
    show(rt, "the joined record", file)?;
    tell(rt, "volume of ours", volume(depth, own))?;
    tell(rt, "volume of theirs", volume(depth, moved))?;
    tell(rt, "volume of the join", stored_volume(file))?;
    match intersect(depth, own, moved, &mut both) {
        Ok(n) => tell(rt, "volume of the intersection", volume(depth, &both[..n])),
        Err(refusal) => tell(rt, "not intersected", refusal),
    }
}

// Two voxels of the joined record in its file: the colour of each, and the level of the largest cell of that colour that holds it. In the sample records the first
// lies in the leaf r13, cut by theirs alone, and the second four voxels above it in r5, where nothing is cut.
fn look(rt: &impl Print, file: &[u8]) -> io::Result<()> {
    let mut codes = [0u32; LEAVES];
    match read(file, &mut codes) {
        Ok(found) => {
            let joined = &codes[..found.leaves];
            tell_found(rt, "voxel 7 3 1", lookup(found.depth, joined, 7, 3, 1))?;
            tell_found(rt, "voxel 7 3 5", lookup(found.depth, joined, 7, 3, 5))
        }
        Err(refusal) => tell(rt, "not read", refusal),
    }
}

// The two lists joined, and the join stored.
fn store(rt: &impl Print, depth: u32, own: &[u32], moved: &[u32]) -> io::Result<()> {
    let mut joined = [0u32; LEAVES];
    let mut file = [0u8; BYTES];
    let stored = merge(depth, own, moved, &mut joined, &mut file);
    tell(rt, "joined and stored", stored)?;
    if let Ok(size) = stored {
        let written = &file[..size];
        report(rt, depth, own, moved, written)?;
        look(rt, written)?;
    }
    Ok(())
}

// The job, with the words for the move's answer: ours is read; theirs is read and moved by `m`; and the two are joined and stored.
fn take_in(rt: &impl Print, asked: &str, ours: &[u8], theirs: &[u8], m: Move) -> io::Result<()> {
    let mut own = [0u32; LEAVES];
    let mut codes = [0u32; LEAVES];
    let mut moved = [0u32; LEAVES];
    let found = match read(ours, &mut own) {
        Ok(found) => found,
        Err(refusal) => return tell(rt, "ours not read", refusal),
    };
    let arrived = arrive(found.depth, theirs, m, &mut codes, &mut moved);
    tell(rt, asked, arrived)?;
    if let Ok(k) = arrived {
        store(rt, found.depth, &own[..found.leaves], &moved[..k])?;
    }
    Ok(())
}

// Their record with a byte of its first code changed.
fn show_damaged(rt: &impl Print, file: &mut [u8]) -> io::Result<()> {
    if file.len() < 17 {
        return Ok(());
    }
    file[16] = 255;
    show(rt, "the record that arrived, damaged", file)
}

fn main(rt: HostRuntime) -> io::Result<()> {
    let mut bytes = [0u8; BYTES];
    let mut arrived = [0u8; BYTES];
    let n = load(&rt, 1, &mut bytes);
    let k = load(&rt, 2, &mut arrived);
    let ours = &bytes[..n];
    let theirs = &arrived[..k];
    show(&rt, "our record", ours)?;
    show(&rt, "the record that arrived", theirs)?;
    // their origin lies 4 voxels to the east and 2 to the north of ours
    take_in(
        &rt,
        "theirs moved by 4 2 0",
        ours,
        theirs,
        Move::Voxels(4, 2, 0),
    )?;
    // one voxel further it would leave the root
    take_in(
        &rt,
        "theirs moved by 5 2 0",
        ours,
        theirs,
        Move::Voxels(5, 2, 0),
    )?;
    show_damaged(&rt, &mut arrived[..k])
}
