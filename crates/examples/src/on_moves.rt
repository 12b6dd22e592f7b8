// Moves in whole voxels and in metres, each with so much room for its result.
use metres::{Metres, Move};
use moves::move_list;
use printing::inner::print::{Items, Written, places};
use std::io;

// A voxel of depth 10 in the middle of the root.
const MIDDLE: [u32; 1] = [2013265920];

fn whole(
    rt: &impl Print,
    depth: u32,
    list: &[u32],
    dx: i32,
    dy: i32,
    dz: i32,
    room: usize,
) -> io::Result<()> {
    let mut space = [0u32; 64];
    let out = places(&mut space, room);
    let answer = move_list(depth, list, Move::Voxels(dx, dy, dz), out);
    let room = out.len();
    println!(rt;
        "move {depth} {} {dx} {dy} {dz} room {room}: {}",
        Items(list),
        Written(answer, out)
    )
}

// In metres along x, under a name: the middle voxel shows where it goes.
fn metres_x(rt: &impl Print, name: &str, x: f64, y: f64, s: u32) -> io::Result<()> {
    let mut space = [0u32; 1];
    let d = Metres { x, y, z: 0.0, s };
    let answer = move_list(10, &MIDDLE, Move::Metres(d), &mut space);
    println!(rt; "metres {name} {s}: {}", Written(answer, &space))
}

// Over in metres along x and back by the negated metres, under a name: where the middle voxel stands then.
fn over_and_back(rt: &impl Print, name: &str, x: f64, s: u32) -> io::Result<()> {
    let mut there = [0u32; 1];
    let mut back = [0u32; 1];
    let over = Metres {
        x,
        y: 0.0,
        z: 0.0,
        s,
    };
    let opposite = Metres {
        x: -x,
        y: -0.0,
        z: -0.0,
        s,
    };
    let _ = move_list(10, &MIDDLE, Move::Metres(over), &mut there);
    let answer = move_list(10, &there, Move::Metres(opposite), &mut back);
    println!(rt; "over and back {name} {s}: {}", Written(answer, &back))
}

fn published(rt: &impl Print) -> io::Result<()> {
    // r057 by y: +5 gives r275, back r057, +1 gives r075, +6 is accepted, +7 leaves; -1 gives r055, -2 leaves
    whole(rt, 3, &[559], 0, 5, 0, 1)?;
    whole(rt, 3, &[701], 0, -5, 0, 1)?;
    whole(rt, 3, &[559], 0, 1, 0, 1)?;
    whole(rt, 3, &[559], 0, 6, 0, 1)?;
    whole(rt, 3, &[559], 0, 7, 0, 1)?;
    whole(rt, 3, &[559], 0, -1, 0, 1)?;
    whole(rt, 3, &[559], 0, -2, 0, 1)?;
    // r0 by x +1 at depth 2, and back; seven places do not suffice
    whole(rt, 2, &[8], 1, 0, 0, 8)?;
    whole(rt, 2, &[65, 67, 69, 71, 72, 74, 76, 78], -1, 0, 0, 1)?;
    whole(rt, 2, &[8], 1, 0, 0, 7)
}

fn whole_cells(rt: &impl Print) -> io::Result<()> {
    // r at depth 0; the empty list takes every whole move
    whole(rt, 0, &[1], 0, 0, 0, 1)?;
    whole(rt, 0, &[1], 1, 0, 0, 1)?;
    whole(rt, 3, &[], -2147483648, 0, 0, 0)?;
    // a leaf of side 4 moved by 2 covers eight cells of side 2
    whole(rt, 3, &[8], 2, 0, 0, 8)
}

fn refused(rt: &impl Print) -> io::Result<()> {
    // the first leaf that leaves; a list that is refused
    whole(rt, 3, &[8, 9], 1, 0, 0, 64)?;
    whole(rt, 3, &[9, 8], 1, 0, 0, 64)?;
    whole(rt, 11, &[8], 1, 0, 0, 64)
}

pub fn run(rt: &impl Print) -> io::Result<()> {
    published(rt)?;
    whole_cells(rt)?;
    refused(rt)
}

fn rounded(rt: &impl Print) -> io::Result<()> {
    // a half goes away from zero
    metres_x(rt, "0.0625", 0.0625, 0.0, 3)?;
    metres_x(rt, "-0.0625", -0.0625, 0.0, 3)?;
    metres_x(rt, "0.1875", 0.1875, 0.0, 3)?;
    metres_x(rt, "-0.1875", -0.1875, 0.0, 3)?;
    // so a record that goes over and back stands where it stood
    over_and_back(rt, "0.0625", 0.0625, 3)?;
    over_and_back(rt, "-0.1875", -0.1875, 3)?;
    // minus zero and the smallest floats give 0
    metres_x(rt, "-0.0", -0.0, 0.0, 3)?;
    metres_x(rt, "5e-324", 5e-324, 0.0, 3)?;
    metres_x(rt, "-5e-324", -5e-324, 0.0, 3)
}

fn no_numbers(rt: &impl Print) -> io::Result<()> {
    // what is no whole number of 32 bits
    metres_x(rt, "infinity", 1e308 * 10.0, 0.0, 3)?;
    metres_x(rt, "-infinity", -1e308 * 10.0, 0.0, 3)?;
    metres_x(rt, "0, and no number along y", 0.0, 0.0 / 0.0, 3)?;
    metres_x(rt, "the largest float", 1.7976931348623157e308, 0.0, 3)?;
    metres_x(rt, "no number, edge number 11", 0.0 / 0.0, 0.0, 11)
}

fn range_ends(rt: &impl Print) -> io::Result<()> {
    // the ends of the range: the rounded number is tested; one that is in range leaves the root
    metres_x(rt, "2147483647", 2147483647.0, 0.0, 0)?;
    metres_x(rt, "2147483647.5", 2147483647.5, 0.0, 0)?;
    metres_x(rt, "-2147483648.4999995", -2147483648.4999995, 0.0, 0)?;
    metres_x(rt, "-2147483648.5", -2147483648.5, 0.0, 0)?;
    metres_x(rt, "-2147483649", -2147483649.0, 0.0, 0)
}

pub fn run_metres(rt: &impl Print) -> io::Result<()> {
    rounded(rt)?;
    no_numbers(rt)?;
    range_ends(rt)
}

#[cfg(test)]
mod tests {
    use metres::inner::Steps;
    use moves::inner::Displacement;

    // The ways up and down along each axis of the opposite of a move in whole voxels, and of the opposite of that.
    #[test]
    fn opposite_changes_up_and_down(rt: HostRuntime) {
        let least = 0x8000_0000;
        let to = Displacement::from(Steps {
            x: 3,
            y: -2,
            z: i32::MIN,
        });
        let back = to.opposite();
        assert_eq!(rt; (back.x.up, back.x.down), (0, 3));
        assert_eq!(rt; (back.y.up, back.y.down), (2, 0));
        assert_eq!(rt; (back.z.up, back.z.down), (least, 0));
        let forth = back.opposite();
        assert_eq!(rt; (forth.x.up, forth.x.down), (3, 0));
        assert_eq!(rt; (forth.y.up, forth.y.down), (0, 2));
        assert_eq!(rt; (forth.z.up, forth.z.down), (0, least));
        let none = Displacement::from(Steps { x: 0, y: 0, z: 0 }).opposite();
        assert_eq!(rt; (none.x.up, none.x.down), (0, 0));
    }
}
