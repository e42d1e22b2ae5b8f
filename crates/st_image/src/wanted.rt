/// What a page has to be.
#[derive(Clone, Copy, Debug, PartialEq, Eq)]
pub enum Wanted {
    /// A page that is not used.
    Free,
    /// A piece of the schema.
    Schema,
    /// A piece of the list of stores and their first pages.
    Roots,
    /// A page of a chain.
    Chain {
        /// The number of its store.
        store: u32,
        /// How many bytes of a row are its key, from 1 to 207.
        key: u16,
        /// How many bytes a row has, at least those of its key and at most 1,000.
        width: u16,
    },
    /// A leaf of a tree.
    Leaf {
        /// The number of its store.
        store: u32,
        /// How many bytes of a row are its key, from 1 to 207.
        key: u16,
        /// How many bytes a row has, at least those of its key and at most 1,000.
        width: u16,
    },
    /// A leaf or an inner page of a tree.
    Node {
        /// The number of its store.
        store: u32,
        /// How many bytes of a row are its key, from 1 to 207.
        key: u16,
        /// How many bytes a row has, at least those of its key and at most 1,000.
        width: u16,
    },
}
