// The calls of the crate cells.
ghost use Rattle.std.specs.Prelude.{◌≡◌};
ghost use Rattle.cells.specs.Corners.{PlaceAnswer, PlaceOf, CodeOf};
ghost use Rattle.cells.specs.Neighbour.{NeighbourOf};
ghost use Rattle.cells.specs.Place.{axes};
ghost use Rattle.probe.specs.Probe.{told, Probed, Tells};

use crate::inner::tell;
use cells::{Answer, code, neighbour, place};

#[unsafe(no_mangle)]
pub extern "C" fn probe_place(depth: u32, code: u32, answer: &mut [u64])
    ensures { Probed answer.old (answer.new ≡ answer.old)
        ((r : PlaceAnswer) × PlaceOf depth code r × (answer.new ≡ told answer.old r.answer r.x r.y r.z r.level)) }
{
    if answer.len() < 8 {
        return;
    }
    match place(depth, code) {
        Ok(r) => tell(
            answer,
            Answer::success(0),
            r.x as u64,
            r.y as u64,
            r.z as u64,
            r.level as u64,
        ),
        Err(refusal) => tell(answer, Answer::from(refusal), 0, 0, 0, 0),
    }
}

#[unsafe(no_mangle)]
pub extern "C" fn probe_code(depth: u32, x: u32, y: u32, z: u32, level: u32, answer: &mut [u64])
    ensures { Tells answer.old answer.new (CodeOf depth (axes x y z) level) }
{
    if answer.len() < 8 {
        return;
    }
    tell(
        answer,
        Answer::from(code(depth, x, y, z, level)),
        0,
        0,
        0,
        0,
    );
}

#[unsafe(no_mangle)]
pub extern "C" fn probe_neighbour(
    depth: u32,
    code: u32,
    dx: i32,
    dy: i32,
    dz: i32,
    answer: &mut [u64],
)
    ensures { Tells answer.old answer.new (NeighbourOf depth code (axes dx dy dz)) }
{
    if answer.len() < 8 {
        return;
    }
    tell(
        answer,
        Answer::from(neighbour(depth, code, dx, dy, dz)),
        0,
        0,
        0,
        0,
    );
}
