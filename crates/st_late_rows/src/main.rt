//! Runs what is written for any base over lists and over a base that reads its store late, and prints what each call
//! answers.
#![tactic(auto)]

mod answers;
mod calls;
mod rows;

use crate::rows::rows;
use std::io;

fn main(rt: HostRuntime) -> io::Result<()> {
    let rows = rows(rt.alloc())?;
    print!(rt; "{rows}")
}
