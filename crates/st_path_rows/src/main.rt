//! Runs a transaction over a base that counts the values that it is asked for, and prints what each statement answers and how
//! many values it asked for.
#![tactic(auto)]

mod counting;
mod rows;

use crate::rows::rows;
use std::io;

fn main(rt: HostRuntime) -> io::Result<()> {
    let rows = rows(rt.alloc())?;
    print!(rt; "{rows}")
}
