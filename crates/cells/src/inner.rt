// INNER: the numbers of a cell, for the crates above. A host must not call these.
ghost use Rattle.std.specs.Prelude.{◌≡◌, ◌+◌, ◌^◌, ◌<◌, ◌≤◌, true, ◌≢◌};
ghost use Rattle.cells.specs.Answer.{deepest};
ghost use Rattle.cells.specs.Cell.{level, proper, span, start};
ghost use Rattle.cells.specs.Place.{along, number, corner};
ghost use Rattle.cells.specs.Inner.{PartAt};

// The place of a word's highest bit.
const TOP_BIT: u32 = 31;

// The side of a cube of depth n.
pub fn pow2(n: u32) -> u32
    requires { n ≤ deepest }
    ensures { result ≡ 2 ^ n }
{
    1u32 << n
}

// The number of voxels of a cube of depth n.
pub fn pow8(n: u32) -> u32
    requires { n ≤ deepest }
    ensures { result ≡ 8 ^ n }
{
    1u32 << (3 * n)
}

// Whether a number is a proper code: its highest one bit stands at place 3k, k at most the depth.
pub fn is_proper(depth: u32, code: u32) -> bool
    requires { depth ≤ deepest }
    ensures { result ≡ proper depth code }
{
    let zeros = u32::leading_zeros(code);
    if TOP_BIT < zeros {
        return false;
    }
    let top = TOP_BIT - zeros;
    top % 3 == 0 && top / 3 <= depth
}

// The level of a proper code, read off the count of leading zeros.
pub fn level_of(depth: u32, code: u32) -> u32
    requires { (depth ≤ deepest) × (proper depth code ≡ true) }
    ensures { result ≡ level depth code }
{
    (TOP_BIT - u32::leading_zeros(code)) / 3
}

// How many voxels the cell of a proper code has. Its highest one bit stands at place 3 * level, so the count of leading zeros is `TOP_BIT` less that.
pub fn width(depth: u32, code: u32) -> u32
    requires { (depth ≤ deepest) × (proper depth code ≡ true) }
    ensures { result ≡ span depth code }
{
    1u32 << (3 * depth + u32::leading_zeros(code) - TOP_BIT)
}

// The least voxel number of the cell of a proper code.
pub fn first(depth: u32, code: u32) -> u32
    requires { (depth ≤ deepest) × (proper depth code ≡ true) }
    ensures { result ≡ start depth code }
{
    code * width(depth, code) - pow8(depth)
}

// The coordinate of voxel v along the axis whose bit in a label is b, in a cube of depth n.
pub fn axis(b: u32, n: u32, v: u32) -> u32
    requires { (n ≤ deepest) × (0 < b) }
    ensures { result ≡ along b n v }
{
    if n == 0 {
        return 0;
    }
    2 * axis(b, n - 1, v / 8) + v % 8 / b % 2
}

// The least coordinate of a cell along the axis whose bit in a label is b.
pub fn coordinate(b: u32, depth: u32, code: u32) -> u32
    requires { (0 < b) × (depth ≤ deepest) × (proper depth code ≡ true) }
    ensures { result ≡ corner b depth code }
{
    let level = level_of(depth, code);
    axis(b, level, code - pow8(level)) * pow2(depth - level)
}

// The number of the voxel at x, y, z in a cube of depth n.
pub fn number_of(n: u32, x: u32, y: u32, z: u32) -> u32
    requires { n ≤ deepest }
    ensures { result ≡ number n x y z }
{
    if n == 0 {
        return 0;
    }
    8 * number_of(n - 1, x / 2, y / 2, z / 2) + (x % 2 + 2 * (y % 2) + 4 * (z % 2))
}

// The place of the first label in which two numbers differ, the last label's being 0: three bits to a label, and the highest one bit of their exclusive or is in it.
pub fn part_at(a: u32, b: u32) -> u32
    requires { a ≢ b }
    ensures { PartAt a b result }
{
    (TOP_BIT - u32::leading_zeros(a ^ b)) / 3
}
