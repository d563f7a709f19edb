//! Policies of the proxy: the slices, and the rules that say which packet headers each may write. This
//! is the proxy's own notion; the standard has nothing of the kind.
#![tactic(auto)]

mod fault;
pub mod laws;
pub mod limits;
mod loading;
mod order;
mod owners;
mod policy;
mod refusal;
mod rules;
mod slices;
mod swaps;
mod switch;
mod text;
mod turns;
mod writes;

pub use fault::{Field, PolicyFault, What};
pub use order::rules_stand_in_order;
pub use owners::{is_in_port, takes_from};
pub use policy::Policy;
pub use refusal::have_switch;
pub use rules::{Rule, first_improper, has_slot, is_vlan, is_written_by};
pub use slices::{Slice, is_controller, is_name};
pub use swaps::Swap;
pub use switch::SwitchPolicy;
pub use text::Text;
