// The call of the crate moves, on whole voxels and on metres.
ghost use Rattle.metres.specs.declared.Move.TheVariants as the-move;
ghost use Rattle.moves.specs.Moves.{MoveOf};
ghost use Rattle.probe.specs.Probe.{Writes, metres_of};

use crate::inner::tell;
use cells::Answer;
use metres::{Metres, Move};
use moves::move_list;

#[unsafe(no_mangle)]
pub extern "C" fn probe_move(
    depth: u32,
    list: &[u32],
    dx: i32,
    dy: i32,
    dz: i32,
    out: &mut [u32],
    answer: &mut [u64],
)
    ensures { Writes answer.old answer.new out.old out.new
        (MoveOf depth list.now (the-move.Voxels dx dy dz) out.old) }
{
    if answer.len() < 8 {
        return;
    }
    let r = move_list(depth, list, Move::Voxels(dx, dy, dz), out);
    tell(answer, Answer::from(r), 0, 0, 0, 0);
}

#[unsafe(no_mangle)]
pub extern "C" fn probe_move_metres(
    depth: u32,
    list: &[u32],
    x: f64,
    y: f64,
    z: f64,
    s: u32,
    out: &mut [u32],
    answer: &mut [u64],
)
    ensures { Writes answer.old answer.new out.old out.new
        (MoveOf depth list.now (the-move.Metres (metres_of x y z s)) out.old) }
{
    if answer.len() < 8 {
        return;
    }
    let d = Metres { x, y, z, s };
    let r = move_list(depth, list, Move::Metres(d), out);
    tell(answer, Answer::from(r), 0, 0, 0, 0);
}
