// Answers.
use ow_value::{Bytes, NoMemory, Pairs, PlainData};
use std::alloc::Global;

/// What is answered to a request.
#[derive(Drop)]
pub struct Answer {
    /// Of three digits (RFC 9110, section 15).
    pub status: u16,
    /// The headers that the reply's writer doesn't make itself, and `Content-Type` where it isn't `application/json`. They are
    /// written as they are: the caller that makes them sees to it that they hold no line end.
    pub headers: Pairs,
    /// It isn't written where the status has none (204 and 304).
    pub body: Bytes,
}

impl PlainData for Answer {
    fn same(&self, other: &Answer) -> bool {
        self.status == other.status
            && self.headers.same(&other.headers)
            && self.body.same(&other.body)
    }

    fn copy(&self, alloc: Global) -> Result<Answer, NoMemory> {
        Ok(Answer {
            status: self.status,
            headers: self.headers.copy(alloc)?,
            body: self.body.copy(alloc)?,
        })
    }
}
