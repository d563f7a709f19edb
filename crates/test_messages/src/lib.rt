//! Messages of OpenFlow 1.0.0, section 5, spelled out as bytes, and the numbers, actions, frames and ports in
//! them. The tests show what the codecs read them as or refuse them with. They also show that the codecs
//! write the same bytes again, but for STATS_REPLY, which no call writes. There are tests here alone.
//!
//! Nearly every case is a row of a table, bytes and words, and one function plays each table: what stands in a
//! function is proved, and costs far more than what stands in a table.
#![tactic(auto)]

#[cfg(test)]
mod readings;
#[cfg(test)]
mod tests;
