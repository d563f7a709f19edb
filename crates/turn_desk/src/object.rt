/// What a desk keeps: it makes one step in each turn.
pub trait Object: Drop {
    /// What is asked.
    type Op: Drop;

    /// What is answered.
    type Reply;

    /// Which replies to an operation are allowed, from the old state to the new one.
    ghost acts: { Self → Self.Op → Self.Reply → Self → Type 0 };

    /// One step.
    fn act(&mut self, op: Self::Op) -> Self::Reply
        ensures { acts self.old op result self.new };
}
