//! Facts of one message that a slice has sent to the switch, whatever came before it: of a flow-mod, of a packet-out,
//! and of a question to which the switch replies. `packet_out` asks for the packet that one carries, and `laws` states
//! what follows from the definitions.
#![tactic(auto)]

pub mod laws;
pub mod packet_out;
