use st_values::Letters;

/// What a qualified name stands for, `type.name`.
#[derive(Clone, Copy, Debug, PartialEq, Eq)]
pub enum Feature {
    /// The attribute with this number. Its type is the attribute's owner.
    Attribute(u16),
    /// The inverse of the attribute with this number. Its type is that of the attribute's values.
    Inverse(u16),
}

/// A feature with the type that has it.
#[derive(Debug, Drop)]
pub struct Named {
    /// The position of the type.
    pub ty: u16,
    /// Its short name, without the type's.
    pub name: Letters,
    /// What it is.
    pub feature: Feature,
}
