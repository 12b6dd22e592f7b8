// The calls of the crate text.
ghost use Rattle.text.specs.Text.{TextOf, RefusedOf};
ghost use Rattle.probe.specs.Probe.{Writes};

use crate::inner::tell;
use cells::Answer;
use text::{list_text, refused_text};

#[unsafe(no_mangle)]
pub extern "C" fn probe_list_text(depth: u32, list: &[u32], bytes: &mut [u8], answer: &mut [u64])
    ensures { Writes answer.old answer.new bytes.old bytes.new
        (TextOf depth list.now bytes.old) }
{
    if answer.len() < 8 {
        return;
    }
    let r = list_text(depth, list, bytes);
    tell(answer, Answer::from(r), 0, 0, 0, 0);
}

#[unsafe(no_mangle)]
pub extern "C" fn probe_refused_text(number: u32, place: u64, bytes: &mut [u8], answer: &mut [u64])
    ensures { Writes answer.old answer.new bytes.old bytes.new
        (RefusedOf number place bytes.old) }
{
    if answer.len() < 8 {
        return;
    }
    let r = refused_text(number, place, bytes);
    tell(answer, Answer::from(r), 0, 0, 0, 0);
}
