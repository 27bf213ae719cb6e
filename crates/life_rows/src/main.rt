//! Rows of lives over wires and a disk in memory, of those wires, and of the program `fixgate` over
//! inputs and outputs in memory. Behind them it prints the help, and the code and the lines of each
//! status.
#![tactic(auto)]

mod calls;
mod disks;
mod ends;
mod lives;
mod outs;
mod peers;
mod runs;
mod scripts;
mod texts;
mod wire_calls;
mod world;

use calls::Calls;
use ends::all_statuses;
use row_words::try_rows;
use runs::help;
use std::io;

fn try_calls(rt: &HostRuntime) -> io::Result<()> {
    try_rows(rt, &mut Calls::new(rt.alloc()))
}

fn main(rt: HostRuntime) -> io::Result<()> {
    try_calls(&rt)?;
    let help = help(rt.alloc())?;
    print!(rt; "{help}")?;
    let statuses = all_statuses(rt.alloc())?;
    print!(rt; "{statuses}")
}
