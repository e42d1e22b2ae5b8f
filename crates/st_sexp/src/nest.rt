ghost use Rattle.std.specs.Prelude.{◌≡◌, ◌+◌, [], ◌∷◌, ◌++◌, Some, None, Ok, OnOk, IfOk, IfErr};
ghost use Rattle.st_token.specs.Answer.{IsOneByte};
ghost use Rattle.st_sexp.specs.Flat.{tokens_of, all_tokens};
ghost use Rattle.st_sexp.specs.Reading.{opens, fault_at};
ghost use Rattle.st_sexp.specs.Levels.{tokens_read, places, IsFaultOf};

use crate::{Form, Forms, SexpFault, Shape};
use sqlite_items::Items;
use st_token::{Token, TokenKind};
use std::alloc::Global;
use std::mem;

/// How many lists may be open at once.
const MAX_DEPTH: usize = 64;

/// An open list.
#[derive(Drop)]
pub(crate) struct Level {
    /// The forms that stand before it in the list around it.
    pub(crate) before: Items<Form>,
    /// Where it began.
    pub(crate) from: u32,
}

/// The open lists between two tokens, the innermost last.
#[derive(Drop)]
pub(crate) struct Nest {
    pub(crate) levels: Items<Level>,
    /// The forms of the innermost open list so far, or of the text where no list is open.
    pub(crate) forms: Items<Form>,
}

impl Nest {
    /// No list is open, and no form was read.
    pub(crate) fn new(alloc: Global) -> Nest
        ensures levels { result.levels ≡ [] }
        ensures forms { result.forms ≡ [] }
    {
        Nest {
            levels: Items::new(alloc),
            forms: Items::new(alloc),
        }
    }

    /// Takes the next token. After a refusal the value is of no more use.
    pub(crate) fn put(&mut self, alloc: Global, token: Token) -> Result<(), SexpFault>
        requires { IsOneByte token.kind token.from token.to }
        ensures tokens { OnOk result (tokens_read self.new ≡ tokens_read self.old ++ token ∷ []) }
        ensures opens { OnOk result
            (opens token.kind token.from (places self.old.levels) ≡ Some (places self.new.levels)) }
        ensures fault { IfErr result (IsFaultOf token.kind token.from (places self.old.levels)) }
    {
        let Token { kind, from, to } = token;
        match kind {
            TokenKind::Open => self.open(alloc, from),
            TokenKind::Close => self.close(from, to),
            TokenKind::Name(letters) => self.add(Shape::Name(letters), from, to),
            TokenKind::Number(number) => self.add(Shape::Number(number), from, to),
            TokenKind::Quoted(letters) => self.add(Shape::Quoted(letters), from, to),
        }
    }

    /// The forms of the whole text, at its end; `Unclosed` at the innermost list that is still open.
    pub(crate) fn finish(self) -> Result<Forms, SexpFault>
        ensures closed { IfOk result (λ _. places self.levels ≡ []) }
        ensures tokens { IfOk result (λ forms. tokens_read self ≡ all_tokens forms) }
        ensures fault { IfErr result (λ fault. fault_at (Ok None) (places self.levels) ≡ Some fault) }
    {
        let Nest { mut levels, forms } = self;
        match levels.pop() {
            None => Ok(forms),
            Some(innermost) => Err(SexpFault::Unclosed {
                place: innermost.from,
            }),
        }
    }

    /// A list opens: the forms so far stand before it. `TooDeep` where 64 lists are open.
    fn open(&mut self, alloc: Global, from: u32) -> Result<(), SexpFault>
        ensures tokens { OnOk result (tokens_read self.new
            ≡ tokens_read self.old ++ record { kind = TokenKind.Open; from = from; to = from + 1 } ∷ []) }
        ensures opens { OnOk result
            (opens TokenKind.Open from (places self.old.levels) ≡ Some (places self.new.levels)) }
        ensures fault { IfErr result (IsFaultOf TokenKind.Open from (places self.old.levels)) }
    {
        if self.levels.len() >= MAX_DEPTH {
            return Err(SexpFault::TooDeep { place: from });
        }
        let before = mem::replace(&mut self.forms, Items::new(alloc));
        self.levels.push(Level { before, from })?;
        Ok(())
    }

    /// The innermost list closes, and is a form of the list around it. `Stray` where no list is open.
    fn close(&mut self, from: u32, to: u32) -> Result<(), SexpFault>
        requires { to ≡ from + 1 }
        ensures tokens { OnOk result (tokens_read self.new
            ≡ tokens_read self.old ++ record { kind = TokenKind.Close; from = from; to = to } ∷ []) }
        ensures opens { OnOk result
            (opens TokenKind.Close from (places self.old.levels) ≡ Some (places self.new.levels)) }
        ensures fault { IfErr result (IsFaultOf TokenKind.Close from (places self.old.levels)) }
    {
        match self.levels.pop() {
            None => Err(SexpFault::Stray { place: from }),
            Some(level) => {
                let Level { before, from } = level;
                let forms = mem::replace(&mut self.forms, before);
                self.add(Shape::List(forms), from, to)
            }
        }
    }

    /// One more form of the innermost open list.
    fn add(&mut self, shape: Shape, from: u32, to: u32) -> Result<(), SexpFault>
        ensures tokens { OnOk result (tokens_read self.new
            ≡ tokens_read self.old ++ tokens_of (record { shape = shape; from = from; to = to })) }
        ensures levels { self.new.levels ≡ self.old.levels }
        ensures fault { IfErr result (λ fault. fault ≡ SexpFault.Memory) }
    {
        self.forms.push(Form { shape, from, to })?;
        Ok(())
    }
}
