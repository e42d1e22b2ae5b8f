use st_values::{Value, Values};

/// What a term stands for.
#[derive(Debug, Drop)]
pub enum Meaning {
    /// A value.
    Single(Value),
    /// A set of values, in order.
    Set(Values),
}
