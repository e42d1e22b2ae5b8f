//! Reads a table of calls on a database in pages, a file of the folder that it runs in, and prints each case with its answers.
#![tactic(auto)]

mod calls;
mod given;
mod schemas;
mod told;

use crate::calls::Calls;
use st_cases::answered;
use std::{fs, io};

fn main(rt: HostRuntime) -> io::Result<()> {
    let file = "calls.txt";
    let text = fs::read_to_string(&rt, file)?;
    let answers = answered(rt.alloc(), &Calls, file, text.as_str())?;
    print!(rt; "{answers}")
}
