use st_values::{Lines, Value};

/// What a statement gives.
#[derive(Debug, Drop)]
pub struct Outcome {
    /// What its lines say, behind the turn and the client.
    pub lines: Lines,
    /// The value to which its variable is bound, if it binds one.
    pub bound: Option<Value>,
}
