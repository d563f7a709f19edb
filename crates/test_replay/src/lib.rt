//! Files, sinks and words by themselves, recordings that are made, and the report of a recording in memory. There are
//! tests here alone; whole calls of the program are played by `case_tables`.
#![tactic(auto)]

#[cfg(test)]
mod tests;
