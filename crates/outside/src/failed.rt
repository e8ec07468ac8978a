use thiserror::Error;

/// A call on the outside failed. What failed, and how often, the shelf or the sink counts.
#[derive(Clone, Copy, Debug, PartialEq, Eq, Error)]
#[error("the call failed")]
pub struct Failed;
