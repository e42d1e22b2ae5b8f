//! Calls on pages in memory.
ghost use Rattle.std.specs.Prelude.{◌<◌, IsSome, OnOk, IfOk};

use crate::edits::{next_word, number};
use crate::told::push_fault;
use st_image::Page;
use st_memory_pages::MemoryPages;
use st_page::PageFault;
use st_pages::Pages;
use std::alloc::{AllocError, Global};
use std::fmt::Write;
use std::str::SplitWhitespace;

/// What calls are answered: the front says which pages there are and which calls are to fail, and the text has the calls, parted by
/// commas.
pub fn memory_answer(alloc: Global, front: &str, text: &str) -> Result<String, AllocError> {
    let mut pages = Vec::new(alloc);
    let mut failing = Vec::new(alloc);
    if !is_given(front, &mut pages, &mut failing)? || pages.len() > 65536 {
        return String::from_str(alloc, " no pages");
    }
    let mut memory = MemoryPages::new(alloc, pages, failing)?;
    called(alloc, &mut memory, text)
}

/// Takes what the front says, parted by commas: `pages` with a number for so many pages of kind 2, `blank` with one of them that is blank, and
/// `failing` with the number of a call. False where it says something else.
fn is_given(
    front: &str,
    pages: &mut Vec<Page>,
    failing: &mut Vec<u64>,
) -> Result<bool, AllocError> {
    for part in front.split(',') {
        if !is_taken(part, pages, failing)? {
            return Ok(false);
        }
    }
    Ok(true)
}

fn is_taken(part: &str, pages: &mut Vec<Page>, failing: &mut Vec<u64>) -> Result<bool, AllocError> {
    let mut words = part.split_whitespace();
    let word = next_word(&mut words);
    let number = number(next_word(&mut words));
    match word {
        "pages" => push_pages(number, pages)?,
        "blank" => empty(number, pages),
        "failing" => failing.push(u64::from(number))?,
        _ => return Ok(false),
    }
    Ok(true)
}

fn push_pages(count: u32, pages: &mut Vec<Page>) -> Result<(), AllocError> {
    for _ in 0..count {
        pages.push(of_kind(2))?;
    }
    Ok(())
}

fn empty(number: u32, pages: &mut [Page]) {
    if let Some(page) = pages.get_mut(number as usize) {
        *page = Page::blank();
    }
}

/// A page of a kind, with nothing else in it.
fn of_kind(kind: u8) -> Page {
    let mut page = Page::blank();
    page.set_kind(kind);
    page
}

/// The answers of calls, one behind the other.
fn called<P: Pages>(alloc: Global, pages: &mut P, text: &str) -> Result<String, AllocError> {
    let mut out = String::new(alloc);
    for part in text.split(',') {
        push_answer(&mut out, made(alloc, pages, calls_of(part)))?;
    }
    Ok(out)
}

/// What is called.
#[derive(Clone, Copy)]
enum Task {
    /// A page is got.
    Get,
    /// A page is got, and an image of a kind is put.
    Put(u8),
    /// A page is drawn.
    Draw,
    /// A page is drawn, and an image of a kind is put.
    DrawAndPut(u8),
    /// Nothing that is known.
    Nothing,
}

/// Calls of one task: the first one on a page, and each other one on the page behind.
#[derive(Clone, Copy)]
struct Calls {
    times: u32,
    task: Task,
    page: u32,
}

/// What a call was answered.
#[derive(Clone, Copy)]
enum Answer {
    /// The kind of the page that was got.
    Kind(u8),
    /// The page was put.
    Put,
    /// The page that was drawn.
    Drawn(u32),
    /// There is no such page, or no such task.
    Nothing,
}

/// The calls that words ask for: `times` with a number stands in front of what is called so often.
fn calls_of(part: &str) -> Calls {
    let mut words = part.split_whitespace();
    let word = next_word(&mut words);
    if word == "times" {
        let times = number(next_word(&mut words));
        let (task, page) = task_of(next_word(&mut words), &mut words);
        Calls { times, task, page }
    } else {
        let (task, page) = task_of(word, &mut words);
        Calls {
            times: 1,
            task,
            page,
        }
    }
}

/// A task and its page: `get` with a page, `put` or `put+` with a page and a kind, `fresh`, `fresh+` with a kind.
fn task_of(word: &str, words: &mut SplitWhitespace<'_>) -> (Task, u32) {
    match word {
        "get" => (Task::Get, number(next_word(words))),
        "put" | "put+" => {
            let page = number(next_word(words));
            (Task::Put(kind_of(words)), page)
        }
        "fresh" => (Task::Draw, 0),
        "fresh+" => (Task::DrawAndPut(kind_of(words)), 0),
        _ => (Task::Nothing, 0),
    }
}

fn kind_of(words: &mut SplitWhitespace<'_>) -> u8 {
    next_word(words).parse::<u8>().unwrap_or(255)
}

/// Makes calls, up to the first one that fails, and answers what the last one was answered.
fn made<P: Pages>(alloc: Global, pages: &mut P, calls: Calls) -> Result<Answer, PageFault> {
    let mut answer = Answer::Nothing;
    for step in 0..calls.times {
        let page = calls.page.saturating_add(step);
        answer = answered(alloc, pages, calls.task, page)?;
    }
    Ok(answer)
}

fn answered<P: Pages>(
    alloc: Global,
    pages: &mut P,
    task: Task,
    page: u32,
) -> Result<Answer, PageFault> {
    if page >= 65536 {
        return Ok(Answer::Nothing);
    }
    match task {
        Task::Get => Ok(Answer::Kind(get_kind(alloc, pages, page)?)),
        Task::Put(kind) => get_and_put(alloc, pages, page, kind),
        Task::Draw => Ok(Answer::Drawn(draw(alloc, pages)?)),
        Task::DrawAndPut(kind) => draw_and_put(alloc, pages, kind),
        Task::Nothing => Ok(Answer::Nothing),
    }
}

fn get_and_put<P: Pages>(
    alloc: Global,
    pages: &mut P,
    page: u32,
    kind: u8,
) -> Result<Answer, PageFault>
    requires { page < 65536 }
{
    get_kind(alloc, pages, page)?;
    put_kind(alloc, pages, page, kind)?;
    Ok(Answer::Put)
}

fn draw_and_put<P: Pages>(alloc: Global, pages: &mut P, kind: u8) -> Result<Answer, PageFault> {
    let page = draw(alloc, pages)?;
    put_kind(alloc, pages, page, kind)?;
    Ok(Answer::Drawn(page))
}

/// The kind of a page that is got.
fn get_kind<P: Pages>(alloc: Global, pages: &mut P, page: u32) -> Result<u8, PageFault>
    requires { page < 65536 }
    ensures { OnOk result (IsSome ((P.attempt pages.new).seen page)) }
{
    let mut frame = Page::blank();
    pages.get(alloc, page, &mut frame)?;
    Ok(frame.kind())
}

/// Puts an image of a kind.
fn put_kind<P: Pages>(alloc: Global, pages: &mut P, page: u32, kind: u8) -> Result<(), PageFault>
    requires { IsSome ((P.attempt pages.old).seen page) }
{
    pages.put(alloc, page, &of_kind(kind))
}

/// The page that is drawn.
fn draw<P: Pages>(alloc: Global, pages: &mut P) -> Result<u32, PageFault>
    ensures { IfOk result (λ page. IsSome ((P.attempt pages.new).seen page)) }
{
    pages.fresh(alloc)
}

/// Adds what a call was answered, behind a blank.
fn push_answer(out: &mut String, answer: Result<Answer, PageFault>) -> Result<(), AllocError> {
    match answer {
        Ok(Answer::Kind(kind)) => write!(out, " {kind}"),
        Ok(Answer::Put) => out.push_str(" ok"),
        Ok(Answer::Drawn(page)) => write!(out, " {page}"),
        Ok(Answer::Nothing) => out.push_str(" nothing"),
        Err(fault) => push_fault(out, fault),
    }
}
