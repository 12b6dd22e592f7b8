// The calls of the crate blocks.
ghost use Rattle.std.specs.Prelude.{◌≡◌};
ghost use Rattle.blocks.specs.Calls.{ReadAnswer, BlockCheckOf, StoredVolumeOf, ReadOf, WriteOf};
ghost use Rattle.probe.specs.Probe.{told, Probed, Tells, Writes};

use crate::inner::tell;
use blocks::inner::readings;
use blocks::{check_blocks, read, stored_volume, write};
use cells::Answer;

#[unsafe(no_mangle)]
pub extern "C" fn probe_write(depth: u32, list: &[u32], bytes: &mut [u8], answer: &mut [u64])
    ensures { Writes answer.old answer.new bytes.old bytes.new
        (WriteOf depth list.now bytes.old) }
{
    if answer.len() < 8 {
        return;
    }
    let r = write(depth, list, bytes);
    tell(answer, Answer::from(r), 0, 0, 0, 0);
}

// With the depth read beside the place.
#[unsafe(no_mangle)]
pub extern "C" fn probe_read(bytes: &[u8], out: &mut [u32], answer: &mut [u64])
    ensures { Probed answer.old ((answer.new ≡ answer.old) × (out.new ≡ out.old))
        ((r : ReadAnswer) × ReadOf bytes.now out.old r out.new
        × (answer.new ≡ told answer.old r.answer r.depth 0 0 0)) }
{
    if answer.len() < 8 {
        return;
    }
    let (a, depth) = readings::told(read(bytes, out));
    tell(answer, a, depth as u64, 0, 0, 0);
}

#[unsafe(no_mangle)]
pub extern "C" fn probe_block_check(bytes: &[u8], answer: &mut [u64])
    ensures { Tells answer.old answer.new (BlockCheckOf bytes.now) }
{
    if answer.len() < 8 {
        return;
    }
    tell(answer, Answer::from(check_blocks(bytes)), 0, 0, 0, 0);
}

#[unsafe(no_mangle)]
pub extern "C" fn probe_stored_volume(bytes: &[u8], answer: &mut [u64])
    ensures { Tells answer.old answer.new (StoredVolumeOf bytes.now) }
{
    if answer.len() < 8 {
        return;
    }
    tell(answer, Answer::from(stored_volume(bytes)), 0, 0, 0, 0);
}
