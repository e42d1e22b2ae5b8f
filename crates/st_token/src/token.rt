use st_text::Letters;

/// What a token is.
#[derive(Debug, Drop)]
pub enum TokenKind {
    /// `(`
    Open,
    /// `)`
    Close,
    /// A name, in small letters.
    Name(Letters),
    Number(i64),
    /// A quoted text, without its quotes, each escape read as the byte that it stands for.
    Quoted(Letters),
}

/// A token, and its bytes in the text: those from `from` on and before `to`.
#[derive(Debug, Drop)]
pub struct Token {
    pub kind: TokenKind,
    pub from: u32,
    pub to: u32,
}
