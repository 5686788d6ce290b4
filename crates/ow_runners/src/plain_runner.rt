// The runner of plain code.
ghost use Rattle.std.specs.Prelude.{◌≡◌, ◌↔◌, List, ℕ, OnOk, IfOk, Some, codes};
ghost use Rattle.ow_value.specs.Value.{Pairs};
ghost use Rattle.ow_traits.specs.Runner.{no_calls};
ghost use Rattle.ow_runners.specs.Plain.{PlainGives, PlainStarts};

use crate::plain_cases::PlainCases;
use ow_traits::{Kind, RunReply, Runner, Started};
use ow_value::{Lines, NoMemory, Params, Str};
use std::alloc::Global;

/// Runs plain code itself, and no programs. It never fails.
#[derive(Drop)]
pub struct PlainRunner {
    runs: u64,
}

/// What a run of plain code takes place in: it keeps the cases of the code that it saw last.
#[derive(Drop)]
pub struct PlainContainer {
    cases: Option<PlainCases>,
}

impl PlainContainer {
    /// One that saw no code yet. This takes no memory.
    pub(crate) fn new() -> PlainContainer {
        PlainContainer { cases: None }
    }

    /// Reads the code, unless it was read last.
    pub(crate) fn make_ready(&mut self, alloc: Global, code: &Str) -> Result<(), NoMemory>
        ensures { OnOk result (self.new.cases ≡ Some code.now) }
    {
        if let Some(cases) = &self.cases
            && cases.are_of(code)
        {
            return Ok(());
        }
        self.cases = Some(PlainCases::read(alloc, code)?);
        Ok(())
    }
}

impl PlainRunner {
    ghost use Rattle.ow_traits.specs.declared.replies.Kind.{Kind};
    ghost use Rattle.ow_traits.specs.declared.replies.RunReply.{RunReply};

    /// A runner of plain code.
    pub fn new() -> PlainRunner
        ensures gives { (kind : Kind) (code : List ℕ) (params : Pairs) (reply : RunReply)
            → ((⟦<PlainRunner as Runner>⟧.gives result).replies kind code params reply ↔ PlainGives kind code params reply) }
        ensures starts { (kind : Kind) → ((⟦<PlainRunner as Runner>⟧.gives result).starts kind ↔ PlainStarts kind) }
        ensures tally { ⟦<PlainRunner as Runner>⟧.tally result ≡ no_calls }
    {
        PlainRunner { runs: 0 }
    }
}

impl Runner for PlainRunner {
    type Container = PlainContainer;

    ghost use Rattle.ow_runners.specs.Plain.{plain_giving, plain_tally};

    ghost gives = { λ r. plain_giving };

    ghost tally = { λ r. plain_tally r.runs };

    fn faults(&self) -> u64 {
        0
    }

    fn start(
        &mut self,
        alloc: Global,
        kind: Kind,
        _memory: u32,
    ) -> Result<Started<PlainContainer>, NoMemory> {
        match kind {
            Kind::Plain => Ok(Started::Up(PlainContainer::new())),
            Kind::Program => Ok(Started::Down(no_program(alloc)?)),
        }
    }

    fn init(
        &mut self,
        alloc: Global,
        c: &mut PlainContainer,
        kind: Kind,
        code: &Str,
    ) -> Result<Option<RunReply>, NoMemory> {
        if kind == Kind::Plain {
            c.make_ready(alloc, code)?;
        }
        Ok(None)
    }

    fn run(
        &mut self,
        alloc: Global,
        c: &mut PlainContainer,
        kind: Kind,
        code: &Str,
        params: &Params,
    ) -> Result<RunReply, NoMemory> {
        self.runs = self.runs.saturating_add(1);
        match kind {
            Kind::Plain => answer(alloc, c, code, params),
            Kind::Program => no_program(alloc),
        }
    }

    fn stop(&mut self, _c: PlainContainer) {}
}

/// The reply of the code, whichever code the container saw last.
pub(crate) fn answer(
    alloc: Global,
    c: &mut PlainContainer,
    code: &Str,
    params: &Params,
) -> Result<RunReply, NoMemory>
    ensures { IfOk result (λ r. PlainGives Kind.Plain code.now params.now r) }
{
    c.make_ready(alloc, code)?;
    match &c.cases {
        Some(cases) => Ok(RunReply::Answer {
            text: cases.reply(alloc, params)?,
            logs: Lines::new(),
        }),
        None => unreachable!(),
    }
}

fn no_program(alloc: Global) -> Result<RunReply, NoMemory>
    ensures { IfOk result (λ r. r ≡ RunReply.NoStart (codes "no program runner")) }
{
    Ok(RunReply::NoStart {
        text: Str::of(alloc, "no program runner")?,
    })
}
