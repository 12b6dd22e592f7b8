// INNER: text put into a lent buffer. Each function puts its text from a place on and tells the place after it; a byte past the buffer's end is counted
// and not written, so that a text is counted by putting it into the empty part of a buffer.
pub mod lines;
pub mod parts;
