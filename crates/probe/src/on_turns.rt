// The call of the crate turns.
ghost use Rattle.turns.specs.Turns.{TurnOf};
ghost use Rattle.probe.specs.Probe.{Writes};

use crate::inner::tell;
use cells::Answer;
use turns::turn_list;

#[unsafe(no_mangle)]
pub extern "C" fn probe_turn(
    depth: u32,
    list: &[u32],
    turns: u32,
    out: &mut [u32],
    answer: &mut [u64],
)
    ensures { Writes answer.old answer.new out.old out.new
        (TurnOf depth list.now turns out.old) }
{
    if answer.len() < 8 {
        return;
    }
    let r = turn_list(depth, list, turns, out);
    tell(answer, Answer::from(r), 0, 0, 0, 0);
}
