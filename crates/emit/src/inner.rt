// INNER: the emitter, for the crates above. A host must not call these.
// It holds one pending black run and writes a run as the biggest cells that fit, so each code is written once and none is written beyond the result.
ghost use Rattle.std.specs.Prelude.{◌≡◌, Bool, List, ℕ, ◌≤◌, ◌<◌, ◌^◌, set};
ghost use Rattle.cells.specs.Answer.{deepest};
ghost use Rattle.emit.specs.Inner.{Fit, Ready, Next, fresh, Emitted, Feeds, Result};

use cells::inner::pow8;

// The pending black run [from, to), and how many codes stand before it; by default none of either, at the first voxel.
#[derive(Clone, Copy, Default)]
pub struct Runs {
    pub from: u32,
    pub to: u32,
    pub at: usize,
}

// The good list of what is pushed, at a depth: the pending run, and the lent buffer of the codes before it. A code past the buffer's end is counted and not written,
// so a list is counted by pushing it to the empty part of a buffer.
#[derive(Drop)]
pub struct Emitter<'a> {
    depth: u32,
    runs: Runs,
    out: &'a mut [u32],
}

// The span of the biggest cell that starts at p and ends by `to`.
fn fit(p: u32, to: u32) -> u32
    requires { p < to }
    ensures { Fit p to result }
{
    let room = (to - p) / 8;
    let mut w: u32 = 1;
    while w <= room {
        let next = w * 8;
        if p % next != 0 {
            return w;
        }
        w = next;
    }
    w
}

impl<'a> Emitter<'a> {
    // Nothing is pushed yet.
    pub fn new(depth: u32, out: &'a mut [u32]) -> Emitter<'a>
        ensures same { result.out.ghost_name ≡ out.entry.ghost_name }
        ensures codes { result.out.now ≡ out.old }
        ensures depth { result.depth ≡ depth }
        ensures runs { result.runs ≡ fresh 0 0 }
    {
        Emitter {
            depth,
            runs: Runs::default(),
            out,
        }
    }

    // The code at place n, where there is room.
    fn put(&mut self, n: usize, code: u32)
        ensures same { self.new.out.ghost_name ≡ self.old.out.ghost_name }
        ensures codes { self.new.out.now ≡ set self.old.out.now n code }
        ensures depth { self.new.depth ≡ self.old.depth }
        ensures runs { self.new.runs ≡ self.old.runs }
    {
        if n < self.out.len() {
            self.out[n] = code;
        }
    }

    // The pending run as cells, biggest first, where all voxels below pos are known and the run is over: none is pending then.
    fn flush(&mut self, pos: u32)
        requires { (self.old.depth ≤ deepest) × Ready self.old.depth self.old.runs pos × (self.old.runs.to < 8 ^ self.old.depth → self.old.runs.to < pos) }
        ensures same { self.new.out.ghost_name ≡ self.old.out.ghost_name }
        ensures depth { self.new.depth ≡ self.old.depth }
        ensures none { self.new.runs ≡ fresh pos self.new.runs.at }
        ensures fed { (P : ℕ → Bool) → Feeds self.old.depth P pos pos self.old self.new }
    {
        let full = pow8(self.depth);
        let to = self.runs.to;
        let mut p = self.runs.from;
        let mut n = self.runs.at;
        while p < to {
            let w = fit(p, to);
            self.put(n, (full + p) / w);
            n += 1;
            p += w;
        }
        self.runs = Runs {
            from: pos,
            to: pos,
            at: n,
        };
    }

    // One more piece [from, to), black or white, where all voxels below `from` are known.
    pub fn push(&mut self, black: bool, from: u32, to: u32)
        requires { Next self.old.depth self.old.runs from to }
        ensures same { self.new.out.ghost_name ≡ self.old.out.ghost_name }
        ensures depth { self.new.depth ≡ self.old.depth }
        ensures fed { (P : ℕ → Bool) → ((v : ℕ) → from ≤ v → v < to → P v ≡ black) → Feeds self.old.depth P from to self.old self.new }
    {
        if !black {
            return;
        }
        if self.runs.to != from {
            self.flush(from);
        }
        self.runs.to = to;
    }

    // The end, where all voxels are known: the last run is written, and the leaves are counted.
    pub fn finish(&mut self) -> usize
        requires { (self.old.depth ≤ deepest) × Ready self.old.depth self.old.runs (8 ^ self.old.depth) }
        ensures same { self.new.out.ghost_name ≡ self.old.out.ghost_name }
        ensures list { (P : ℕ → Bool) (o : List ℕ) →
            Emitted self.old.depth P o self.old.out.now (8 ^ self.old.depth) self.old.runs → Result self.old.depth P o self.new.out.now result }
    {
        self.flush(pow8(self.depth));
        self.runs.at
    }
}
