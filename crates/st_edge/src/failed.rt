use thiserror::Error;

/// A call on the outside has failed. The count of the form that was called has risen.
#[derive(Clone, Copy, Debug, PartialEq, Eq, Error)]
#[error("a call on the outside has failed")]
pub struct Failed;
