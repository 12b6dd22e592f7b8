// INNER: a move in whole voxels, for the crate of the move call. A host must not call these.
//
// A coordinate d in metres becomes the whole number nearest to d x 2^s, a half going away from zero, over the exact value of d. The size of d, times 2^(s+1),
// is an `f64` again and nothing is lost, since only the exponent changes (`halved`). Its whole part counts half voxels. `size` is the tie rule, and the only
// place that knows it. `fit` puts the sign back and is the range of 32 bits.
ghost use Rattle.std.specs.Prelude.{◌≡◌, ◌*◌, ◌^◌, ◌<◌, ◌≤◌, false, T, pos};
ghost use Rattle.std.specs.Float.Ieee as Ieee;
ghost use Rattle.std.specs.Float.{fin};
ghost use Rattle.std.specs.Float.Ieee.Positive.{positive, num, den};
ghost use Rattle.metres.specs.Metres.{finest};
ghost use Rattle.metres.specs.Taken.{TakenOf};
ghost use Rattle.metres.specs.declared.Move.TheVariants as the-move;
ghost use Rattle.metres.specs.Inner.{Rounded, Measured, size_of, fitted, with_sign, together};

use crate::{FINEST, Metres, Move};
use cells::NoWholeMove;

// 2^32, a size in metres that is out of the range of 32 bits at every scale.
const REACH: f64 = 4294967296.0;

// A move in whole voxels, along each axis.
#[derive(Clone, Copy)]
pub struct Steps {
    pub x: i32,
    pub y: i32,
    pub z: i32,
}

// The size a in whole half voxels.
fn halved(a: f64, s: u32) -> u64
    requires s_le_finest { s ≤ finest }
    requires t { T (positive a) }
    requires a_bound { num a < 2 ^ 32 * den a }
    ensures { Measured s a result }
{
    let per_metre = (2u64 << s) as f64;
    std::num::truncating_f64_to_u64(a * per_metre)
}

// The tie rule: the size of the whole number nearest to w half voxels.
fn size(w: u64) -> u64
    ensures { result ≡ size_of w }
{
    w.div_ceil(2)
}

// k, or -k, if it is a signed 32-bit number.
fn fit(negative: bool, k: u64) -> Option<i32>
    ensures { result ≡ fitted negative k }
{
    let k = i64::try_from(k).ok()?;
    i32::try_from(if negative { -k } else { k }).ok()
}

// The coordinate a, or -a, as whole voxels, if it has a 32-bit number of them.
fn of_size(negative: bool, a: f64, s: u32) -> Option<i32>
    requires s_le_finest { s ≤ finest }
    requires t { T (Ieee.lt (fin false 0 (pos 0)) a) }
    ensures { Rounded s (with_sign negative a) result }
{
    if a < REACH {
        fit(negative, size(halved(a, s)))
    } else {
        None
    }
}

// The whole number nearest to d x 2^s, if there is one of 32 bits.
fn nearest(d: f64, s: u32) -> Option<i32>
    requires { s ≤ finest }
    ensures { Rounded s d result }
{
    if d.is_nan() {
        return None;
    }
    if d > 0.0 {
        return of_size(false, d, s);
    }
    if d < 0.0 {
        return of_size(true, -d, s);
    }
    // zero of either sign
    Some(0)
}

// Three coordinates, or the first that is none.
fn joined(x: Option<i32>, y: Option<i32>, z: Option<i32>) -> Result<Steps, NoWholeMove>
    ensures { result ≡ together x y z }
{
    Ok(Steps {
        x: x.ok_or(NoWholeMove::X)?,
        y: y.ok_or(NoWholeMove::Y)?,
        z: z.ok_or(NoWholeMove::Z)?,
    })
}

// A move in metres as one in whole voxels.
fn measured(d: Metres) -> Result<Steps, NoWholeMove>
    ensures { TakenOf (the-move.Metres d) result }
{
    let s = d.s;
    if FINEST < s {
        return Err(NoWholeMove::EdgeNumber);
    }
    joined(nearest(d.x, s), nearest(d.y, s), nearest(d.z, s))
}

// A move as one in whole voxels.
pub fn in_voxels(m: Move) -> Result<Steps, NoWholeMove>
    ensures { TakenOf m result }
{
    match m {
        Move::Voxels(x, y, z) => Ok(Steps { x, y, z }),
        Move::Metres(d) => measured(d),
    }
}
