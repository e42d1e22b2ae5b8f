//! How a table is read and answered.
//!
//! A line of a table begins an item, and lines below it that begin with two blanks go on with it: each is a line end
//! and what stands behind the two blanks. An item that begins with `# ` is a comment. One that begins with `> ` is the
//! front of the cases behind it. An empty line is no item, and each other item is a case.

use crate::case::{Case, case_of};
use std::alloc::{AllocError, Global};
use std::fmt::Write;

/// What the cases of a table are asked.
pub trait Asks {
    /// What a case is answered: behind a blank, or on lines of their own. `AllocError` where there is no memory.
    fn answer(&self, alloc: Global, case: &Case) -> Result<String, AllocError>;
}

/// A table that is being answered.
#[derive(Drop)]
struct Sheet {
    front: String,
    count: u64,
    answers: String,
}

impl Sheet {
    /// Takes an item, and answers it where it is a case.
    fn take<A: Asks>(&mut self, alloc: Global, asked: &A, item: &str) -> Result<(), AllocError> {
        if item.is_empty() || item.starts_with("# ") {
            return Ok(());
        }
        if let Some(front) = item.strip_prefix("> ") {
            self.front = format!(in alloc; "{front}\n")?;
            return Ok(());
        }
        self.count = self.count.saturating_add(1);
        self.push_case(alloc, asked, item)
    }

    /// Adds the first line of a case, and its answer.
    fn push_case<A: Asks>(
        &mut self,
        alloc: Global,
        asked: &A,
        item: &str,
    ) -> Result<(), AllocError> {
        let case = case_of(alloc, self.front.as_str(), item)?;
        let answer = asked.answer(alloc, &case)?;
        let answer = case.marked(alloc, answer)?;
        let (line, _) = item.split_once('\n').unwrap_or((item, ""));
        writeln!(self.answers, "{line} =>{answer}")
    }
}

/// The answers of a table by its text: for each case its first line, `=>` and the answer; at the end the name of the
/// table's file, and how many cases there are. `AllocError` where there is no memory.
pub fn answered<A: Asks>(
    alloc: Global,
    asked: &A,
    file: &str,
    text: &str,
) -> Result<String, AllocError> {
    let mut sheet = Sheet {
        front: String::new(alloc),
        count: 0,
        answers: String::new(alloc),
    };
    let mut item = String::new(alloc);
    for line in text.lines() {
        match line.strip_prefix("  ") {
            Some(more) => {
                item.push('\n')?;
                item.push_str(more)?;
            }
            None => {
                sheet.take(alloc, asked, item.as_str())?;
                item = String::from_str(alloc, line)?;
            }
        }
    }
    sheet.take(alloc, asked, item.as_str())?;
    let count = sheet.count;
    let answers = sheet.answers.as_str();
    format!(in alloc; "{answers}{file}: {count} cases\n\n")
}
