// What a line on standard output shows, and the examples of cells, lists, sets, listings and turns: a part of the program `examples`.
#![tactic(auto)]

pub mod inner;
