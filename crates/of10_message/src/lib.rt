//! The messages of OpenFlow 1.0 read once: what a controller sends to its slice and what a switch sends. A
//! reading gives one value for each type of message, or the first thing that is wrong with its bytes. Also
//! the configuration of a switch and of its queues, read and spelled, and the errors of a switch.
#![tactic(auto)]

mod bodiless;
mod config;
mod controller;
mod controller_reading;
mod fault;
pub mod laws;
mod queues;
mod switch;
mod switch_error;
mod switch_reading;

pub use bodiless::bare;
pub use config::{SwitchConfig, config_reply, set_config};
pub use controller::FromController;
pub use controller_reading::read_controller;
pub use fault::Unread;
pub use queues::{QueuesQuestion, QueuesView, queues_reply, queues_request};
pub use switch::SwitchMessageView;
pub use switch_error::{ErrorView, pair_in};
pub use switch_reading::read_switch;
