// The calls of the crate records.
ghost use Rattle.std.specs.Prelude.{◌≡◌, List, ℕ, length};
ghost use Rattle.cells.specs.declared.Answer.{Answer};
ghost use Rattle.records.specs.Calls.{CheckOf, VolumeOf};
ghost use Rattle.records.specs.Lookups.{LookupOf};
ghost use Rattle.records.specs.Met.{MetOf, MetAtOf};
ghost use Rattle.cells.specs.Place.{axes};
ghost use Rattle.probe.specs.Probe.{told, Probed, Tells, Finds, copied};

use crate::inner::tell;
use cells::Answer;
use records::inner::findings;
use records::{check, lookup, met, met_at, volume};

#[unsafe(no_mangle)]
pub extern "C" fn probe_check(depth: u32, list: &[u32], answer: &mut [u64])
    ensures { Tells answer.old answer.new (CheckOf depth list.now) }
{
    if answer.len() < 8 {
        return;
    }
    tell(answer, Answer::from(check(depth, list)), 0, 0, 0, 0);
}

#[unsafe(no_mangle)]
pub extern "C" fn probe_volume(depth: u32, list: &[u32], answer: &mut [u64])
    ensures { Tells answer.old answer.new (VolumeOf depth list.now) }
{
    if answer.len() < 8 {
        return;
    }
    tell(answer, Answer::from(volume(depth, list)), 0, 0, 0, 0);
}

// With the level beside the place.
#[unsafe(no_mangle)]
pub extern "C" fn probe_lookup(depth: u32, list: &[u32], x: u32, y: u32, z: u32, answer: &mut [u64])
    ensures { Finds answer.old answer.new (LookupOf depth list.now x y z) }
{
    if answer.len() < 8 {
        return;
    }
    let (a, level) = findings::told(lookup(depth, list, x, y, z));
    tell(answer, a, 0, 0, 0, level as u64);
}

// As many codes of `from` as fit, at the front of `to`. (By `copy_from_slice` the archive would need memmove from outside.)
fn copy(from: &[u32], to: &mut [u32])
    ensures { to.new ≡ copied from.now to.old }
{
    let n = from.len().min(to.len());
    for i in 0..n {
        to[i] = from[i];
    }
}

// The companion's answer, the length of the returned part beside it, and the part's codes in `part`, as many as fit.
#[unsafe(no_mangle)]
pub extern "C" fn probe_met(
    depth: u32,
    list: &[u32],
    code: u32,
    dx: i32,
    dy: i32,
    dz: i32,
    part: &mut [u32],
    answer: &mut [u64],
)
    ensures { Probed answer.old ((answer.new ≡ answer.old) × (part.new ≡ part.old))
        ((a : Answer) × (r : List ℕ) × (q : ℕ × ℕ) × MetAtOf depth list.now code (axes dx dy dz) a
        × MetOf depth list.now list.entry.ref_ptr code (axes dx dy dz) r q
        × (answer.new ≡ told answer.old a (length r) 0 0 0) × (part.new ≡ copied r part.old)) }
{
    if answer.len() < 8 {
        return;
    }
    let found = met(depth, list, code, dx, dy, dz);
    let n = found.len();
    copy(found, part);
    let a = met_at(depth, list, code, dx, dy, dz);
    tell(answer, Answer::from(a), n as u64, 0, 0, 0);
}
