// INNER: the walk that judges a list, the search in a good one, and the test that a voxel lies in the root, for the crates above. A host must not call these.
pub mod findings;
pub mod slots;

ghost use Rattle.std.specs.Prelude.{◌≡◌, List, ℕ, suc, ◌+◌, ◌%◌, ◌^◌, ◌≤◌, ltb, length, get_or, MatchResult};
ghost use Rattle.cells.specs.Answer.{deepest};
ghost use Rattle.cells.specs.Refusals.{answer_of};
ghost use Rattle.cells.specs.declared.refusals.Refusal.TheVariants.{Leaf};
ghost use Rattle.cells.specs.Place.{axes, all_axes};
ghost use Rattle.records.specs.Record.{Ordered};
ghost use Rattle.records.specs.Inner.{Searchable, Starts, reaches};
ghost use Rattle.records.specs.Walk.{next_run, Faultless, Underway, Stopped, Walked, Asked, Tells, JudgedOf};

use cells::inner::{first, is_proper, pow2, width};
use cells::{Fault, Refusal};

// The first fault of a list, and the index where it stands.
#[derive(Clone, Copy, PartialEq, Eq, Debug)]
pub struct Stop {
    pub fault: Fault,
    pub at: usize,
}

impl Stop {
    // The refusal of list k.
    pub fn of_list(self, k: u32) -> Refusal
        ensures { result ≡ Leaf self.fault self.at k }
    {
        Refusal::Leaf(self.fault, self.at, k)
    }
}

// What is kept of the leaves passed: how many; the last one's code; the voxel number after it; how many siblings in a row end with it; the voxels of all.
#[derive(Clone, Copy, Default)]
pub struct Walk {
    pub passed: usize,
    pub last: u32,
    pub past: u32,
    pub run: u32,
    pub sum: u32,
}

// How many siblings in a row end with a code, where `run` of them end with the code `last` before it. A row begins with a first child.
fn next_run(last: u32, run: u32, code: u32) -> u32
    requires { (run ≡ 0 → ⊥) → run ≡ suc (last % 8) }
    ensures { result ≡ next_run last run code }
{
    if code % 8 == 0 {
        return 1;
    }
    if run == 0 {
        return 0;
    }
    if code - 1 == last {
        return run + 1;
    }
    0
}

impl Walk {
    // A leaf more. The tests are those of document 01, in its order, on what is kept of the leaves before.
    pub fn step(&mut self, depth: u32, code: u32) -> Result<(), Stop>
        requires { Underway depth self.old }
        ensures { (l : List ℕ) (i : ℕ) → Faultless depth l i self.old → get_or l i 0 ≡ code → MatchResult result (λ u. Faultless depth l (i + 1) self.new) (Stopped depth l (i + 1)) }
    {
        let at = self.passed;
        if !is_proper(depth, code) {
            let fault = Fault::NotProper;
            return Err(Stop { fault, at });
        }
        let from = first(depth, code);
        if from < self.past {
            let fault = Fault::Early;
            return Err(Stop { fault, at });
        }
        let run = next_run(self.last, self.run, code);
        if run == 8 {
            let fault = Fault::EightSiblings;
            return Err(Stop { fault, at });
        }
        let voxels = width(depth, code);
        *self = Walk {
            passed: at + 1,
            last: code,
            past: from + voxels,
            run,
            sum: self.sum + voxels,
        };
        Ok(())
    }
}

// A walk along n codes, each asked for by its index, to their end or the first fault.
pub fn walk_along<F: Fn(usize) -> u32>(depth: u32, n: usize, code_at: F) -> Result<Walk, Stop>
    requires { (depth ≤ deepest) × Asked n (F.pre code_at) (F.post code_at) }
    ensures { (l : List ℕ) → Tells n (F.post code_at) l → Walked depth l n result }
{
    let mut walk = Walk::default();
    for i in 0..n {
        walk.step(depth, code_at(i))?;
    }
    Ok(walk)
}

// A walk along a list.
pub fn judge(depth: u32, list: &[u32]) -> Result<Walk, Stop>
    requires { depth ≤ deepest }
    ensures { Walked depth list.now (length list.now) result }
{
    walk_along(depth, list.len(), |i| list[i])
}

// How many leaves list k has, or its refusal at its first fault.
pub fn judged(depth: u32, list: &[u32], k: u32) -> Result<usize, Refusal>
    requires { depth ≤ deepest }
    ensures { JudgedOf depth list.now k (answer_of result) }
{
    match judge(depth, list) {
        Ok(walk) => Ok(walk.passed),
        Err(stop) => Err(stop.of_list(k)),
    }
}

// The first place from lo up to hi whose leaf starts at voxel v or after it, or hi. (`partition_point` would ask that its test may be called on any number,
// and `first` takes proper codes alone.)
pub fn first_from(depth: u32, l: &[u32], v: u32, lo: usize, hi: usize) -> usize
    requires { Searchable depth l.now lo hi }
    ensures { Starts depth l.now v lo hi result }
{
    let mut a = lo;
    let mut b = hi;
    while a < b {
        let mid = a + (b - a) / 2;
        let c = l[mid];
        if first(depth, c) < v {
            a = mid + 1;
        } else {
            b = mid;
        }
    }
    a
}

// Whether the leaf before place `at` ends after voxel v. Of the leaves that start before v, or at it, only the last can hold it.
pub fn last_reaches(depth: u32, l: &[u32], at: usize, v: u32) -> bool
    requires { (depth ≤ deepest) × Ordered depth 0 l.now × (at ≤ length l.now) }
    ensures { result ≡ reaches depth l.now at v }
{
    if at == 0 {
        return false;
    }
    let c = l[at - 1];
    v < first(depth, c) + width(depth, c)
}

// Whether the voxel x, y, z lies in the root.
pub fn in_root(depth: u32, x: u32, y: u32, z: u32) -> bool
    requires { depth ≤ deepest }
    ensures { result ≡ all_axes (λ a. ltb (axes x y z a) (2 ^ depth)) }
{
    let side = pow2(depth);
    x < side && y < side && z < side
}
