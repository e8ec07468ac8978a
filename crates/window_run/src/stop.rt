/// Why a window went no further.
#[derive(Clone, Copy, Debug, PartialEq, Eq)]
pub enum Stop {
    /// It came to the end of its task.
    End,
    /// It took as many event ticks as its task allows.
    Budget,
}
