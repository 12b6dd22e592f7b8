// What a line shows of a call: its answer, items in brackets, and what it wrote at the front of a buffer.
use cells::{Answer, Refusal};
use records::Finding;
use records::inner::findings;
use std::fmt;

// Items in brackets, a space between.
#[derive(Clone, Copy)]
pub struct Items<'a, T>(pub &'a [T]);

impl<T: fmt::Display> fmt::Display for Items<'_, T> {
    fn fmt<W: fmt::Write>(&self, f: &mut fmt::Formatter<W>) -> fmt::Result {
        f.write_str("[")?;
        if let [first, rest @ ..] = self.0 {
            write!(f, "{first}")?;
            for item in rest {
                write!(f, " {item}")?;
            }
        }
        f.write_str("]")
    }
}

// An answer: its number, place and list.
#[derive(Clone, Copy)]
pub struct Numbers(pub Answer);

impl fmt::Display for Numbers {
    fn fmt<W: fmt::Write>(&self, f: &mut fmt::Formatter<W>) -> fmt::Result {
        write!(f, "{} {} {}", self.0.number, self.0.place, self.0.list)
    }
}

// The answer of a call.
pub fn told(outcome: impl Into<Answer>) -> Numbers {
    Numbers(outcome.into())
}

// What a lookup tells: its answer, and the level beside it.
#[derive(Clone, Copy)]
pub struct Seen(pub Result<Finding, Refusal>);

impl fmt::Display for Seen {
    fn fmt<W: fmt::Write>(&self, f: &mut fmt::Formatter<W>) -> fmt::Result {
        let (answer, level) = findings::told(self.0);
        write!(f, "{} level {level}", Numbers(answer))
    }
}

// The answer of a call that writes to the front of a buffer, and after it the items that it wrote.
#[derive(Clone, Copy)]
pub struct Written<'a, T>(pub Result<usize, Refusal>, pub &'a [T]);

impl<T: fmt::Display> fmt::Display for Written<'_, T> {
    fn fmt<W: fmt::Write>(&self, f: &mut fmt::Formatter<W>) -> fmt::Result {
        write!(f, "{}", Numbers(Answer::from(self.0)))?;
        if let Ok(n) = self.0 {
            if let Some(items) = self.1.get(..n) {
                write!(f, " {}", Items(items))?;
            }
        }
        Ok(())
    }
}

// The first places of a buffer, `room` of them or all.
pub fn places<T>(space: &mut [T], room: usize) -> &mut [T] {
    let n = room.min(space.len());
    &mut space[..n]
}
