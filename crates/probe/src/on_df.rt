// The calls of the crate df.
ghost use Rattle.df.specs.Df.{DfReadOf, DfWriteOf};
ghost use Rattle.probe.specs.Probe.{Writes};

use crate::inner::tell;
use cells::Answer;
use df::{df_read, df_write};

#[unsafe(no_mangle)]
pub extern "C" fn probe_df_read(depth: u32, text: &[u8], out: &mut [u32], answer: &mut [u64])
    ensures { Writes answer.old answer.new out.old out.new
        (DfReadOf depth text.now out.old) }
{
    if answer.len() < 8 {
        return;
    }
    let r = df_read(depth, text, out);
    tell(answer, Answer::from(r), 0, 0, 0, 0);
}

#[unsafe(no_mangle)]
pub extern "C" fn probe_df_write(depth: u32, list: &[u32], bytes: &mut [u8], answer: &mut [u64])
    ensures { Writes answer.old answer.new bytes.old bytes.new
        (DfWriteOf depth list.now bytes.old) }
{
    if answer.len() < 8 {
        return;
    }
    let r = df_write(depth, list, bytes);
    tell(answer, Answer::from(r), 0, 0, 0, 0);
}
