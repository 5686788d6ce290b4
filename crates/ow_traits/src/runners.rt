// Runners, which run actions.
ghost use Rattle.std.specs.Prelude.{◌≡◌, IfOk};
ghost use Rattle.ow_traits.specs.Runner.{Giving, Idles, Initialises, Replies, Runs, Starts, Tally};

use crate::{Kind, RunReply};
use ow_value::{NoMemory, Params, Str};
use std::alloc::Global;

/// The result of the start of a container.
#[derive(Drop)]
pub enum Started<B: Drop> {
    /// The container is up.
    Up(B),
    /// The container did not come up: a `NoStart` or a `Fault`.
    Down(RunReply),
}

/// A runner runs actions, each in a container. The replies that it gives to a code with parameters never change, and neither do the kinds
/// whose containers come up. A fault is no such reply, and occurs only where the count of faults rose.
pub trait Runner {
    /// The container of a run.
    type Container: Drop;

    /// Which replies it gives to a kind, a code and parameters, and of which kinds its containers come up.
    ghost gives: { Self → Giving };

    /// How many calls failed, and how often code was run. Both counts saturate at the greatest u64.
    ghost tally: { Self → Tally };

    /// How many calls failed. The count saturates at the greatest u64.
    fn faults(&self) -> u64
        ensures { result ≡ (tally self.now).faults };

    /// Starts a container for code of this kind. The memory is in MB.
    fn start(
        &mut self,
        alloc: Global,
        kind: Kind,
        memory: u32,
    ) -> Result<Started<Self::Container>, NoMemory>
        ensures idles { Idles (gives self.old) (gives self.new) (tally self.old) (tally self.new) }
        ensures started { IfOk result (Starts (gives self.old) (tally self.old) (tally self.new) kind) };

    /// Makes a container ready for the code. Where that fails, the reply is no answer, and each run of the code has the same reply.
    fn init(
        &mut self,
        alloc: Global,
        c: &mut Self::Container,
        kind: Kind,
        code: &Str,
    ) -> Result<Option<RunReply>, NoMemory>
        ensures idles { Idles (gives self.old) (gives self.new) (tally self.old) (tally self.new) }
        ensures ready { IfOk result (Initialises (gives self.old) (tally self.old) (tally self.new) kind code.now) };

    /// Runs the code once with the parameters. The reply is that of the code handed in, whichever container is lent.
    fn run(
        &mut self,
        alloc: Global,
        c: &mut Self::Container,
        kind: Kind,
        code: &Str,
        params: &Params,
    ) -> Result<RunReply, NoMemory>
        ensures runs { Runs (gives self.old) (gives self.new) (tally self.old) (tally self.new) }
        ensures reply { IfOk result (Replies (gives self.old) (tally self.old) (tally self.new) kind code.now params.now) };

    /// Ends a container.
    fn stop(&mut self, c: Self::Container)
        ensures { Idles (gives self.old) (gives self.new) (tally self.old) (tally self.new) };
}
