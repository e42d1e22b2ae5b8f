//! Reads tables of calls on stores, files of the folder that it runs in, and prints each case with what the calls are answered.
#![tactic(auto)]

mod asked;
mod calls;
mod given;
mod indexed;
mod pages;
mod schemas;
mod series;
mod store;

use crate::asked::Table;
use st_cases::answered;
use std::{fs, io};

fn main(rt: HostRuntime) -> io::Result<()> {
    for (table, file) in [
        (Table::Chains, "chains.txt"),
        (Table::Chains, "faults.txt"),
        (Table::Indexes, "indexes.txt"),
    ] {
        let text = fs::read_to_string(&rt, file)?;
        let answers = answered(rt.alloc(), &table, file, text.as_str())?;
        print!(rt; "{answers}")?;
    }
    Ok(())
}
