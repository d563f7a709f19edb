//! What one message of a slice or of a switch makes, and sessions at the desk of one switch: messages of wrong forms,
//! messages that end early, and what waits for a connection until it is full. There are tests here alone.
#![tactic(auto)]

#[cfg(test)]
mod full_queues;
#[cfg(test)]
mod hostile;
#[cfg(test)]
mod sessions;
#[cfg(test)]
mod sides;
