ghost use Rattle.std.specs.Prelude.{◌≡◌, ◌∷◌, ◌++◌, [], flat_map, IfOk, OnOk};
ghost use Rattle.st_meaning.specs.Lines.{line, commit_tail, refused_tail};

use crate::number::{push_number, push_signed};
use crate::refusal::push_refusal;
use st_state::Refusal;
use st_text::Letters;
use std::alloc::{AllocError, Global};

/// Where a line stands: the turn, the client whose turn it is, and the number of the client's transaction, each from one.
#[derive(Clone, Copy, Debug, PartialEq, Eq)]
pub struct Turn {
    /// The number of the turn.
    pub number: u128,
    /// The number of the client.
    pub client: u8,
    /// The number of the client's transaction.
    pub transaction: u128,
}

fn push_rest(into: &mut Letters, tail: &Letters) -> Result<(), AllocError>
    ensures { OnOk result (into.new ≡ into.old ++ 32 ∷ tail.now ++ 10 ∷ []) }
{
    into.push_str(" ")?;
    into.push_str(tail.as_str())?;
    into.push_str("\n")
}

/// Adds a line: where it stands, and what happened.
fn push_line(into: &mut Letters, turn: Turn, tail: &Letters) -> Result<(), AllocError>
    ensures { OnOk result (into.new ≡ into.old ++ line turn.number turn.client turn.transaction tail.now) }
{
    push_number(into, turn.number)?;
    push_signed(into, " ", u128::from(turn.client))?;
    push_signed(into, ".", turn.transaction)?;
    push_rest(into, tail)
}

fn line_of(alloc: Global, turn: Turn, tail: &Letters) -> Result<Letters, AllocError>
    ensures { IfOk result (λ text. text ≡ line turn.number turn.client turn.transaction tail.now) }
{
    let mut text = Letters::new(alloc);
    push_line(&mut text, turn, tail)?;
    Ok(text)
}

/// The lines of what a statement answers in its turn, `line` of each; `AllocError` where there is no memory.
pub fn answer_lines(alloc: Global, turn: Turn, answers: &[Letters]) -> Result<Letters, AllocError>
    ensures { IfOk result (λ text. text ≡ flat_map (line turn.number turn.client turn.transaction) answers.now) }
{
    let mut text = Letters::new(alloc);
    for answer in answers {
        push_line(&mut text, turn, answer)?;
    }
    Ok(text)
}

/// The line of a commit, by its number, `commit_tail`; `AllocError` where there is no memory.
pub fn commit_line(alloc: Global, turn: Turn, commit: u128) -> Result<Letters, AllocError>
    ensures { IfOk result (λ text. text ≡ line turn.number turn.client turn.transaction (commit_tail commit)) }
{
    let mut tail = Letters::from_text(alloc, "commit ")?;
    push_number(&mut tail, commit)?;
    line_of(alloc, turn, &tail)
}

/// The line of a refusal in the state behind so many commits, `refused_tail`, where `names` has the name of each type, in the
/// order of the schema; `AllocError` where there is no memory.
pub fn refused_line(
    alloc: Global,
    turn: Turn,
    names: &[Letters],
    commits: u128,
    refusal: &Refusal,
) -> Result<Letters, AllocError>
    ensures { IfOk result (λ text. text ≡ line turn.number turn.client turn.transaction (refused_tail names.now commits refusal.now)) }
{
    let mut tail = Letters::from_text(alloc, "refused ")?;
    push_number(&mut tail, commits)?;
    tail.push_str(" ")?;
    push_refusal(&mut tail, names, refusal)?;
    line_of(alloc, turn, &tail)
}
