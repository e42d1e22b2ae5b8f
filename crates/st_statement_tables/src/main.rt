//! Reads tables of statements, files of the folder that it runs in, and prints each case with the stores that it may
//! touch.
#![tactic(auto)]

mod answers;
mod table;

use crate::table::TABLES;
use st_cases::answered;
use std::{fs, io};

fn main(rt: HostRuntime) -> io::Result<()> {
    for table in TABLES {
        let text = fs::read_to_string(&rt, table.file())?;
        let answers = answered(rt.alloc(), &table, table.file(), text.as_str())?;
        print!(rt; "{answers}")?;
    }
    Ok(())
}
