use deck_cards::Edit;
use semantics::Name;

/// What a line of a script asks for.
#[derive(Drop)]
pub enum Command {
    /// Makes an edit. Its values may be outside their limits.
    Edit(Edit),
    /// Settles all accepted edits; the version reached becomes the current one.
    Run,
    /// The published version becomes the current one.
    Look,
    /// Tells the wave of a node in the current version.
    Show {
        node: Name,
        /// The first and the last tick to be told, where not all are.
        range: Option<(u64, u64)>,
    },
    /// Tells the events of the current version.
    Events {
        /// The first and the last tick to be told, where not all are.
        range: Option<(u64, u64)>,
    },
    /// Binds a name to the current version.
    Pin(Name),
    /// The version that a name is bound to becomes the current one.
    UsePin(Name),
    /// Binds a name no more.
    Unpin(Name),
    /// Tells how many ramps the last `run` made, or the opening where there was none yet.
    Work,
}
