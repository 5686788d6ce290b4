// A runner in memory, of which some calls are to fail.
ghost use Rattle.std.specs.Prelude.{◌≡◌, ◌↔◌, List, ℕ, Contains};
ghost use Rattle.ow_value.specs.Value.{Pairs};
ghost use Rattle.ow_traits.specs.Runner.{no_calls};

use crate::calls::Calls;
use crate::{Kind, RunReply, Runner, Started};
use ow_value::{Items, NoMemory, Params, PlainData, Str};
use std::alloc::Global;

/// Gives the replies of its script, whatever is run: the first reply to the first run. A run after the last reply is a
/// fault, and so is a run whose reply is `Fault`. The calls of `start`, `init` and `run` whose numbers are in `failing`
/// fail; the first has the number 0.
#[derive(Drop)]
pub struct ScriptRunner {
    script: Items<RunReply>,
    at: usize,
    calls: Calls,
    runs: u64,
}

impl ScriptRunner {
    ghost use Rattle.ow_traits.specs.declared.replies.Kind.{Kind};
    ghost use Rattle.ow_traits.specs.declared.replies.RunReply.{RunReply};

    /// A runner of this script, with no fault yet.
    pub fn new(script: Items<RunReply>, failing: Vec<u64>) -> ScriptRunner
        ensures gives { (kind : Kind) (code : List ℕ) (params : Pairs) (reply : RunReply)
            → ((⟦<ScriptRunner as Runner>⟧.gives result).replies kind code params reply ↔ Contains script reply) }
        ensures starts { (kind : Kind) → (⟦<ScriptRunner as Runner>⟧.gives result).starts kind }
        ensures tally { ⟦<ScriptRunner as Runner>⟧.tally result ≡ no_calls }
    {
        ScriptRunner {
            script,
            at: 0,
            calls: Calls::new(failing),
            runs: 0,
        }
    }
}

impl Runner for ScriptRunner {
    type Container = u64;

    ghost use Rattle.std.specs.Prelude.{Contains};

    ghost gives = { λ r. record { replies = λ kind code params reply. Contains r.script reply; starts = λ kind. Unit {0} } };

    ghost tally = { λ r. record { faults = r.calls.faults; runs = r.runs } };

    fn faults(&self) -> u64 {
        self.calls.faults
    }

    fn start(
        &mut self,
        _alloc: Global,
        _kind: Kind,
        _memory: u32,
    ) -> Result<Started<u64>, NoMemory> {
        if self.calls.fails_next() {
            return Ok(Started::Down(RunReply::Fault));
        }
        Ok(Started::Up(self.calls.made))
    }

    fn init(
        &mut self,
        _alloc: Global,
        _c: &mut u64,
        _kind: Kind,
        _code: &Str,
    ) -> Result<Option<RunReply>, NoMemory> {
        if self.calls.fails_next() {
            return Ok(Some(RunReply::Fault));
        }
        Ok(None)
    }

    fn run(
        &mut self,
        alloc: Global,
        _c: &mut u64,
        _kind: Kind,
        _code: &Str,
        _params: &Params,
    ) -> Result<RunReply, NoMemory> {
        self.runs = self.runs.saturating_add(1);
        if self.calls.fails_next() {
            return Ok(RunReply::Fault);
        }
        let Some(reply) = self.script.as_slice().get(self.at) else {
            self.calls.count_fault();
            return Ok(RunReply::Fault);
        };
        let reply = reply.copy(alloc)?;
        self.at += 1;
        if matches!(reply, RunReply::Fault) {
            self.calls.count_fault();
        }
        Ok(reply)
    }

    fn stop(&mut self, _c: u64) {}
}
