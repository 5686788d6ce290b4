// How a connection ends.

/// How a connection ended.
#[derive(Clone, Copy, Debug, PartialEq, Eq, Drop)]
pub enum Ending {
    /// The peer's bytes ended between requests.
    Ended,
    /// The peer's bytes ended inside a request, and the reply that says so was written.
    CutShort,
    /// The reply was written to a request after which the connection is to end, or to bytes that are no request.
    Closed,
    /// The link failed while it was read.
    ReadFault,
    /// The link failed while a reply was written. It took a prefix of the reply.
    WriteFault,
    /// Memory ran out. The reply that says so was written where there was memory for it.
    NoMemory,
}
