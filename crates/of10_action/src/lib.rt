//! The actions of OpenFlow 1.0, their bytes, and what can be wrong with a message.
#![tactic(auto)]

mod action;
mod decode;
mod encode;
pub mod error;
mod fault;
mod view;

pub use action::{Action, Actions, Bytes};
pub use decode::{
    action_padding_says_nothing, count_ends_no_reading, decode_list, fault_is_of_the_first_wrong,
    reading_keeps_the_length, spelling_is_read,
};
pub use encode::{encode_list, list_size};
pub use fault::{DecodeFault, WireFault, code};
pub use view::ActionsView;
