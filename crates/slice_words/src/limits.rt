/// A slice makes fewer requests than this at one switch, and is given fewer packets: each comes with an event of the
/// switch's desk, which takes in fewer.
pub const MOST_NUMBERED: u64 = 1 << 62;
