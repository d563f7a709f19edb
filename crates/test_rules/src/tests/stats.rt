//! What the switch is asked for statistics, which entries a slice keeps, and the replies that it gets.

mod asking;
mod keeping;
mod replying;
