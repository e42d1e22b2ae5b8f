/// A store, and its first page.
#[derive(Clone, Copy, Debug, PartialEq, Eq)]
pub struct Root {
    /// The store's number.
    pub store: u32,
    /// Its first page.
    pub first: u32,
}
