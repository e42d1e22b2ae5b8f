//! Reads tables of cases, files of the folder that it runs in, and prints each case with its answer.
#![tactic(auto)]

mod disk;
mod forms;
mod lattice;
mod schemas;
mod table;
mod tries;
mod values;

use crate::table::TABLES;
use st_cases::answered;
use std::{fs, io};

fn main(rt: HostRuntime) -> io::Result<()> {
    for table in TABLES {
        let text = fs::read_to_string(&rt, table.file())?;
        let answers = answered(rt.alloc(), &table, table.file(), text.as_str())?;
        print!(rt; "{answers}")?;
    }
    let calls = fs::read_to_string(&rt, "disk.txt")?;
    let answers = disk::answered(rt, calls.as_str())?;
    print!(rt; "{answers}")
}
