//! The run of a window, from crossing to crossing.
#![tactic(auto)]

mod bend;
mod courses;
mod device;
mod flow;
mod free;
mod hand_out;
mod intake;
mod look;
mod open;
mod stage;
mod stop;
mod task;
mod turn;
mod wait;
mod window;
mod window_of;
mod wiring;

pub use free::free_nodes;
pub use stop::Stop;
pub use task::Task;
pub use window::Window;
pub use window_of::run_window;
