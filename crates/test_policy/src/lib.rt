//! Policies, what they say of headers and ports or are refused with; and their texts, what they are read as or
//! refused with, and what is printed. There are tests here alone.
#![tactic(auto)]

#[cfg(test)]
mod tests;
