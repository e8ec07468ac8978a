use device_tables::Table;
use semantics::Channel;

/// What the devices that name it have in common.
#[derive(Debug, Drop)]
pub enum Part {
    /// A level 1 model. Each device of it has a table of its own, by its length and width and the grain.
    Level {
        channel: Channel,
        /// The threshold voltage, in microvolts.
        vto: i64,
        /// The gain, in picoamperes per square volt.
        kp: i64,
    },
    /// The current in each pair of cells.
    Listed(Table),
}
