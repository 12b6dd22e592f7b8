// INNER: an answer as words of a lent buffer.
ghost use Rattle.std.specs.Prelude.{◌≡◌, ◌≤◌, length};
ghost use Rattle.probe.specs.Probe.{told};

use cells::Answer;

// The answer, the four numbers beside its place, and 0 in the rest.
pub fn tell(answer: &mut [u64], a: Answer, x: u64, y: u64, z: u64, level: u64)
    requires { 8 ≤ length answer.old }
    ensures { answer.new ≡ told answer.old a x y z level }
{
    answer.fill(0);
    answer[0] = a.number as u64;
    answer[1] = a.place;
    answer[2] = a.list as u64;
    answer[3] = x;
    answer[4] = y;
    answer[5] = z;
    answer[6] = level;
}
