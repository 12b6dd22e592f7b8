// INNER: the words of blocks, their check, whether they are right, and the list that they hold.
pub mod held;
pub mod readings;
pub mod soundness;
pub mod sums;
pub mod words;
