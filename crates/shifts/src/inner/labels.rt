// Labels: three bits, one for each axis. The addition of labels of document 000, all three axes at once.
ghost use Rattle.std.specs.Prelude.{◌≡◌, true, false, ◌<◌};
ghost use Rattle.shifts.specs.LabelSums.{sum_label, carry_label, join_label, Uses};
ghost use Rattle.shifts.specs.Shift.{need};

// The label of the sum of three labels.
pub fn sum_label(h: u32, m: u32, q: u32) -> u32
    requires { (h < 8) × (m < 8) × (q < 8) }
    ensures { (result ≡ sum_label h m q) × (result < 8) }
{
    h ^ m ^ q
}

// The label that they carry to the parent.
pub fn carry_label(h: u32, m: u32, q: u32) -> u32
    requires { (h < 8) × (m < 8) × (q < 8) }
    ensures { (result ≡ carry_label h m q) × (result < 8) }
{
    (h & m) | (h & q) | (m & q)
}

// The axes of either label.
pub fn join_label(a: u32, b: u32) -> u32
    requires { (a < 8) × (b < 8) }
    ensures { (result ≡ join_label a b) × (result < 8) }
{
    a | b
}

// Whether q has no axis but those of f.
pub fn within(f: u32, q: u32) -> bool
    requires { (f < 8) × (q < 8) }
    ensures { (result ≡ true → Uses f q) × (result ≡ false → Uses f q → ⊥) }
{
    (f | q) == f
}

// The axes on which the last k labels of w are not all 0.
pub fn axes(w: u32, k: u32) -> u32
    ensures { result ≡ need k w }
{
    let mut f: u32 = 0;
    let mut rest = w;
    for _n in 0..k {
        f = join_label(f, rest % 8);
        rest /= 8;
    }
    f
}
