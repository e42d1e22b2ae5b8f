//! A schema as it is written, before its names are looked up.
use sqlite_items::Items;
use st_text::Letters;

/// An option of an attribute.
#[derive(Drop)]
pub enum Setting {
    /// `:inverse NAME`.
    Inverse(Letters),
    /// `:unique t` or `:unique nil`.
    Unique(bool),
    /// `:no-nulls t` or `:no-nulls nil`.
    NoNulls(bool),
    /// `:index t` or `:index nil`.
    Index(bool),
}

/// An option, and where its word begins.
#[derive(Drop)]
pub struct Choice {
    pub setting: Setting,
    pub place: u32,
}

/// A list of options, in text order.
pub type Choices = Items<Choice>;

/// The type of single values.
#[derive(Drop)]
pub enum Worded {
    Int,
    Bool,
    /// Texts of at most this many bytes, 1 to 200.
    Text(u8),
    /// Entities of the type with this name.
    Entity(Letters),
}

/// An attribute.
#[derive(Drop)]
pub struct AttributeForm {
    pub name: Letters,
    pub worded: Worded,
    /// Whether it has a set of values.
    pub many: bool,
    pub choices: Choices,
}

/// A list of attributes, in text order.
pub type AttributeForms = Items<AttributeForm>;

/// A list of names.
pub type Names = Items<Letters>;

/// A type.
#[derive(Drop)]
pub struct TypeForm {
    pub name: Letters,
    pub parents: Names,
    pub attributes: AttributeForms,
}

/// A list of types, in text order.
pub type TypeForms = Items<TypeForm>;

/// A schema.
#[derive(Drop)]
pub struct Written {
    pub name: Letters,
    pub types: TypeForms,
}
