/// The cells of a device from a tick on, as its events have them, and the tick before which it stays in them.
#[derive(Clone, Copy)]
pub struct CellStay {
    pub cells: (u32, u32),
    pub until: u64,
}
