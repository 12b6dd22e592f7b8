// How the programs read: a part of `listing` and `tour`.
#![tactic(auto)]

pub mod inner;
