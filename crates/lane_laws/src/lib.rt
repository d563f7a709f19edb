//! What a slice has sent to the switch: flow-mods and packet-outs, and questions that it may ask. The
//! flow-mods and packet-outs lie in the slice's flowspace, send only to its ports, name only packets which it
//! was given as their writer, and leave every flow table treating all other headers as before.
#![tactic(auto)]

pub mod laws;
