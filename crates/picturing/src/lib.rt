// The examples of bits, of the plain engine: a part of the program `examples`. What a line shows is that of `printing`.
#![tactic(auto)]

pub mod inner;
