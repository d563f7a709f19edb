mod divisions;
mod given;
mod policies;
mod ports;
mod questions;
mod swaps;
mod texts;
