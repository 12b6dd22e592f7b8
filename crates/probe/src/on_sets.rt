// The calls of the crate sets.
ghost use Rattle.sets.specs.Sets.{SetOf};
ghost use Rattle.sets.specs.declared.Op.TheVariants.{Join, Intersect, Subtract};
ghost use Rattle.probe.specs.Probe.{Writes};

use crate::inner::tell;
use cells::Answer;
use sets::{intersect, join, subtract};

#[unsafe(no_mangle)]
pub extern "C" fn probe_join(depth: u32, a: &[u32], b: &[u32], out: &mut [u32], answer: &mut [u64])
    ensures { Writes answer.old answer.new out.old out.new
        (SetOf Join depth a.now b.now out.old) }
{
    if answer.len() < 8 {
        return;
    }
    let r = join(depth, a, b, out);
    tell(answer, Answer::from(r), 0, 0, 0, 0);
}

#[unsafe(no_mangle)]
pub extern "C" fn probe_meet(depth: u32, a: &[u32], b: &[u32], out: &mut [u32], answer: &mut [u64])
    ensures { Writes answer.old answer.new out.old out.new
        (SetOf Intersect depth a.now b.now out.old) }
{
    if answer.len() < 8 {
        return;
    }
    let r = intersect(depth, a, b, out);
    tell(answer, Answer::from(r), 0, 0, 0, 0);
}

#[unsafe(no_mangle)]
pub extern "C" fn probe_less(depth: u32, a: &[u32], b: &[u32], out: &mut [u32], answer: &mut [u64])
    ensures { Writes answer.old answer.new out.old out.new
        (SetOf Subtract depth a.now b.now out.old) }
{
    if answer.len() < 8 {
        return;
    }
    let r = subtract(depth, a, b, out);
    tell(answer, Answer::from(r), 0, 0, 0, 0);
}
