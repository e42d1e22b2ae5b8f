//! Reads tables of databases in pages and of pages in memory, files of the folder that it runs in, and prints each case with
//! what is read or called.
#![tactic(auto)]

mod databases;
mod edits;
mod memory;
mod roots;
mod schemas;
mod serials;
mod table;
mod told;

use crate::table::TABLES;
use st_cases::answered;
use std::{fs, io};

fn main(rt: HostRuntime) -> io::Result<()> {
    for table in TABLES {
        let text = fs::read_to_string(&rt, table.file())?;
        let answers = answered(rt.alloc(), &table, table.file(), text.as_str())?;
        print!(rt; "{answers}")?;
    }
    Ok(())
}
