// How a run of an action ends.
ghost use Rattle.std.specs.Prelude.{◌≡◌};
ghost use Rattle.ow_traits.specs.Runner.{is_answer};

use ow_value::{Lines, NoMemory, PlainData, Str};
use std::alloc::Global;

/// What an action's code is.
#[derive(Clone, Copy, Debug, PartialEq, Eq)]
pub enum Kind {
    /// Code that the service itself answers for.
    Plain,
    /// A program that is started for it.
    Program,
}

/// How a run ended.
#[derive(Drop)]
pub enum RunReply {
    /// The action answered with a text. The logs are the lines that it wrote beside it.
    Answer { text: Str, logs: Lines },
    /// The program ended without an answer, with this status.
    Exit { code: i32, logs: Lines },
    /// The action did not start, for the reason in the text.
    NoStart { text: Str },
    /// The runner failed.
    Fault,
}

impl RunReply {
    /// Whether the action answered.
    pub fn is_answer(&self) -> bool
        ensures { result ≡ is_answer self.now }
    {
        matches!(self, RunReply::Answer { .. })
    }
}

impl PlainData for RunReply {
    fn same(&self, other: &RunReply) -> bool {
        match (self, other) {
            (
                RunReply::Answer { text, logs },
                RunReply::Answer {
                    text: other_text,
                    logs: other_logs,
                },
            ) => text.same(other_text) && logs.same(other_logs),
            (
                RunReply::Exit { code, logs },
                RunReply::Exit {
                    code: other_code,
                    logs: other_logs,
                },
            ) => *code == *other_code && logs.same(other_logs),
            (RunReply::NoStart { text }, RunReply::NoStart { text: other_text }) => {
                text.same(other_text)
            }
            (RunReply::Fault, RunReply::Fault) => true,
            _ => false,
        }
    }

    fn copy(&self, alloc: Global) -> Result<RunReply, NoMemory> {
        match self {
            RunReply::Answer { text, logs } => Ok(RunReply::Answer {
                text: text.copy(alloc)?,
                logs: logs.copy(alloc)?,
            }),
            RunReply::Exit { code, logs } => Ok(RunReply::Exit {
                code: *code,
                logs: logs.copy(alloc)?,
            }),
            RunReply::NoStart { text } => Ok(RunReply::NoStart {
                text: text.copy(alloc)?,
            }),
            RunReply::Fault => Ok(RunReply::Fault),
        }
    }
}
