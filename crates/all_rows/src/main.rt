//! The rows of all crates below a life, in one program. They stand in parts: a row `part NAME` says
//! which crate of rows answers those behind it.
#![tactic(auto)]

mod calls;

use calls::Calls;
use row_words::try_rows;
use std::io;

fn main(rt: HostRuntime) -> io::Result<()> {
    try_rows(&rt, &mut Calls::new(rt.alloc()))
}
