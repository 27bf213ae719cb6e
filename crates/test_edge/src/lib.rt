//! The tests of the edge's adapters, over the loopback and a file, in one process. They stand on
//! the public calls alone. `tests/serve` tries the adapters in the program, between two peers.
//!
//! A test makes the edge, and hands a wire and the clock of it to a function that knows them by
//! their traits alone. So the proofs of the tests see neither sockets nor the clock's parts.
#![tactic(auto)]

#[cfg(test)]
mod files;
#[cfg(test)]
mod lines;
#[cfg(test)]
mod narrow;
#[cfg(test)]
mod notices;
#[cfg(test)]
mod peers;
#[cfg(test)]
mod streams;
