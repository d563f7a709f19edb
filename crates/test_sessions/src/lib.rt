//! Readers and writers of connections in memory, over the desk of one switch. There are tests here alone.
#![tactic(auto)]

#[cfg(test)]
mod connections;
#[cfg(test)]
mod desks;
#[cfg(test)]
mod readers;
#[cfg(test)]
mod slices;
#[cfg(test)]
mod spent;
#[cfg(test)]
mod waking;
#[cfg(test)]
mod writers;
