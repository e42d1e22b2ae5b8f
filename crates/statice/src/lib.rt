//! The commands of the database: from words, a disk, a source and a sink to a status.
#![tactic(auto)]

mod command;
mod fault;
mod input;
mod laws;
mod program;
mod status;
mod words;

pub use command::statice;
pub use laws::{laws_of_databases, laws_of_endings, laws_of_inputs};
pub use status::{
    BAD_WORDS, DONE, Ended, OUT_OF_MEMORY, REFUSED, SINK_FAILED, SOME_REFUSED, SOURCE_FAILED,
    Status, TOO_LONG,
};
