/// How a reader ended.
#[derive(Clone, Copy, Debug, PartialEq, Eq)]
pub enum ReaderEnd {
    /// The source gave its end.
    Closed,
    /// The source failed.
    ReadFault,
    /// The desk answered that the connection is to be closed.
    Dismissed,
    /// The desk answered that it has ended.
    DeskEnded,
    /// The seat has no calls left.
    Spent,
    /// Memory ran out.
    Memory,
}

/// How a writer ended.
#[derive(Clone, Copy, Debug, PartialEq, Eq)]
pub enum WriterEnd {
    /// The sink failed.
    WriteFault,
    /// Messages were dropped, since too many waited.
    Choked,
    /// Nothing will come.
    Ended,
    /// The seat has no calls left.
    Spent,
}

/// How a slice's reader ended.
#[derive(Clone, Copy, Debug, PartialEq, Eq)]
pub enum SliceEnd {
    /// A thousand dials in a row failed.
    GaveUp,
    /// The desk answered that it has ended.
    DeskEnded,
    /// The seat has no calls left.
    Spent,
}
