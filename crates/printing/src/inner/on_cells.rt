// Cells and codes, and neighbours.
ghost use Rattle.std.specs.Prelude.{◌≡◌};
ghost use Rattle.cells.specs.Corners.{place_answer};

use crate::inner::print::{Numbers, told};
use cells::{Answer, Corner, Refusal};
use std::io;

// What `place` tells in the numbers of the table: the answer, and beside it the corner and the level, which are 0 in a refusal.
fn placed(found: Result<Corner, Refusal>) -> (Answer, Corner)
    ensures { result ≡ (
      (place_answer found).answer,
      record { x = (place_answer found).x; y = (place_answer found).y; z = (place_answer found).z; level = (place_answer found).level },
    ) }
{
    match found {
        Ok(corner) => (Answer::success(0), corner),
        Err(refusal) => {
            let none = Corner {
                x: 0,
                y: 0,
                z: 0,
                level: 0,
            };
            (Answer::from(refusal), none)
        }
    }
}

fn place(rt: &impl Print, depth: u32, code: u32) -> io::Result<()> {
    let (answer, at) = placed(cells::place(depth, code));
    println!(rt;
        "place {depth} {code}: {} at {} {} {} level {}",
        Numbers(answer),
        at.x,
        at.y,
        at.z,
        at.level
    )
}

fn code(rt: &impl Print, depth: u32, x: u32, y: u32, z: u32, level: u32) -> io::Result<()> {
    let answer = told(cells::code(depth, x, y, z, level));
    println!(rt; "code {depth} {x} {y} {z} {level}: {answer}")
}

fn neighbour(rt: &impl Print, depth: u32, code: u32, dx: i32, dy: i32, dz: i32) -> io::Result<()> {
    let answer = told(cells::neighbour(depth, code, dx, dy, dz));
    println!(rt; "neighbour {depth} {code} {dx} {dy} {dz}: {answer}")
}

fn places_and_codes(rt: &impl Print) -> io::Result<()> {
    // r is 1, r0 is 8, r057 is 559; 0, 2 to 7 are never proper, nor is 16
    place(rt, 3, 1)?;
    place(rt, 3, 8)?;
    place(rt, 3, 559)?;
    place(rt, 3, 0)?;
    place(rt, 3, 2)?;
    place(rt, 3, 3)?;
    place(rt, 3, 4)?;
    place(rt, 3, 5)?;
    place(rt, 3, 6)?;
    place(rt, 3, 7)?;
    place(rt, 3, 16)?;
    place(rt, 2, 559)?;
    place(rt, 11, 1)?;
    // and back; a corner that is no multiple of the side, one outside the root, a level below the voxels
    code(rt, 3, 0, 0, 0, 0)?;
    code(rt, 3, 3, 1, 3, 3)?;
    code(rt, 3, 3, 1, 3, 2)?;
    code(rt, 3, 8, 0, 0, 3)?;
    code(rt, 3, 0, 0, 0, 4)?;
    code(rt, 11, 0, 0, 0, 0)
}

fn steps_of_001(rt: &impl Print) -> io::Result<()> {
    // r742 with steps (-1, +1, +1) gives r675; r0 with x -1 gives 7; the root has no neighbour
    neighbour(rt, 3, 994, -1, 1, 1)?;
    neighbour(rt, 3, 8, -1, 0, 0)?;
    neighbour(rt, 0, 1, 0, 0, 1)
}

fn along_y(rt: &impl Print) -> io::Result<()> {
    // r057 and r075 are neighbours along y
    neighbour(rt, 3, 559, 0, 1, 0)?;
    neighbour(rt, 3, 573, 0, -1, 0)
}

fn refused_steps(rt: &impl Print) -> io::Result<()> {
    // refusals in the order of the table: depth, code, direction
    neighbour(rt, 11, 0, 2, 0, 0)?;
    neighbour(rt, 3, 0, 2, 0, 0)?;
    neighbour(rt, 3, 559, 2, 0, 0)?;
    neighbour(rt, 3, 559, 0, 0, 0)
}

pub fn run(rt: &impl Print) -> io::Result<()> {
    places_and_codes(rt)?;
    steps_of_001(rt)?;
    along_y(rt)?;
    refused_steps(rt)
}
