// The runner of programs that the office table names, and of plain code.
ghost use Rattle.std.specs.Prelude.{◌≡◌, ◌↔◌, ◌≢◌, List, ℕ, IfOk, codes, option_map};
ghost use Rattle.ow_value.specs.Text.{compact};
ghost use Rattle.ow_value.specs.Value.{Pairs, members_of, object};
ghost use Rattle.ow_traits.specs.Runner.{no_calls};
ghost use Rattle.ow_runners.specs.Program.{PathGives, ProgramGives, path_of};

use crate::plain_runner::{PlainContainer, answer};
use crate::program::{ProgramEnd, run_program};
use crate::program_output::reply_of;
use ow_traits::{Kind, RunReply, Runner, Started};
use ow_value::{NoMemory, Pairs, Params, PlainData, Str, Val, write_val};
use std::alloc::Global;
use std::process::{Processes, SystemProcess};
use std::thread::Threads;

/// Runs plain code itself, and starts the program of a row for any other. A run of a program lasts as long as the program does.
#[derive(Drop)]
pub struct ProgramRunner<R: Processes<Started = SystemProcess> + Threads + Drop> {
    rt: R,
    // The name and the path of each program.
    programs: Pairs,
    faults: u64,
    runs: u64,
}

impl<R: Processes<Started = SystemProcess> + Threads + Drop> ProgramRunner<R> {
    ghost use Rattle.ow_traits.specs.declared.replies.Kind.{Kind};
    ghost use Rattle.ow_traits.specs.declared.replies.RunReply.{RunReply};

    /// A runner of these programs, each a name and a path, with no fault yet.
    pub fn new(rt: R, programs: Pairs) -> ProgramRunner<R>
        ensures gives { (kind : Kind) (code : List ℕ) (params : Pairs) (reply : RunReply)
            → ((⟦<ProgramRunner<R> as Runner>⟧.gives result).replies kind code params reply ↔ ProgramGives programs kind code params reply) }
        ensures starts { (kind : Kind) → (⟦<ProgramRunner<R> as Runner>⟧.gives result).starts kind }
        ensures tally { ⟦<ProgramRunner<R> as Runner>⟧.tally result ≡ no_calls }
    {
        ProgramRunner {
            rt,
            programs,
            faults: 0,
            runs: 0,
        }
    }

    // The path of the program of this name.
    fn path(&self, name: &str) -> Option<&str>
        ensures { option_map (λ p. p.now) result ≡ path_of self.now.programs name.now }
    {
        for row in self.programs.as_slice() {
            if row.0.as_str() == name {
                return Some(row.1.as_str());
            }
        }
        None
    }

    // The reply of the program of this name to the parameters.
    fn reply(&self, alloc: Global, name: &str, params: &Params) -> Result<RunReply, NoMemory>
        ensures { IfOk result (λ r. r ≢ RunReply.Fault → PathGives (path_of self.now.programs name.now) r) }
    {
        match self.path(name) {
            Some(path) => reply_at(&self.rt, alloc, path, params),
            None => no_such_program(alloc),
        }
    }
}

impl<R: Processes<Started = SystemProcess> + Threads + Drop> Runner for ProgramRunner<R> {
    type Container = PlainContainer;

    ghost use Rattle.ow_runners.specs.Program.{program_giving};

    ghost gives = { λ r. program_giving r.programs };

    ghost tally = { λ r. record { faults = r.faults; runs = r.runs } };

    fn faults(&self) -> u64 {
        self.faults
    }

    fn start(
        &mut self,
        _alloc: Global,
        _kind: Kind,
        _memory: u32,
    ) -> Result<Started<PlainContainer>, NoMemory> {
        Ok(Started::Up(PlainContainer::new()))
    }

    fn init(
        &mut self,
        alloc: Global,
        c: &mut PlainContainer,
        kind: Kind,
        code: &Str,
    ) -> Result<Option<RunReply>, NoMemory> {
        match kind {
            Kind::Plain => {
                c.make_ready(alloc, code)?;
                Ok(None)
            }
            Kind::Program => match self.path(code.as_str()) {
                Some(_) => Ok(None),
                None => Ok(Some(no_such_program(alloc)?)),
            },
        }
    }

    fn run(
        &mut self,
        alloc: Global,
        c: &mut PlainContainer,
        kind: Kind,
        code: &Str,
        params: &Params,
    ) -> Result<RunReply, NoMemory> {
        self.runs = self.runs.saturating_add(1);
        match kind {
            Kind::Plain => answer(alloc, c, code, params),
            Kind::Program => {
                let reply = self.reply(alloc, code.as_str(), params)?;
                if matches!(reply, RunReply::Fault) {
                    self.faults = self.faults.saturating_add(1);
                }
                Ok(reply)
            }
        }
    }

    fn stop(&mut self, _c: PlainContainer) {}
}

// The reply of the program at the path to the parameters.
fn reply_at<R: Processes<Started = SystemProcess> + Threads>(
    rt: &R,
    alloc: Global,
    path: &str,
    params: &Params,
) -> Result<RunReply, NoMemory> {
    let input = input_of(alloc, params)?;
    match run_program(rt, alloc, path, input)? {
        ProgramEnd::Ended(output) => reply_of(alloc, &output),
        ProgramEnd::Unstarted => no_start(alloc, "the program did not start"),
        ProgramEnd::Failed => Ok(RunReply::Fault),
    }
}

// What a program reads: the compact text of the parameters.
fn input_of(alloc: Global, params: &Params) -> Result<Vec<u8>, NoMemory>
    ensures { IfOk result (λ b. b.items ≡ compact (object (members_of params.now))) }
{
    let value = Val::Object(params.copy(alloc)?);
    write_val(alloc, &value)
}

fn no_such_program(alloc: Global) -> Result<RunReply, NoMemory>
    ensures { IfOk result (λ r. r ≡ RunReply.NoStart (codes "no such program")) }
{
    no_start(alloc, "no such program")
}

fn no_start(alloc: Global, text: &str) -> Result<RunReply, NoMemory>
    ensures { IfOk result (λ r. r ≡ RunReply.NoStart text.now) }
{
    Ok(RunReply::NoStart {
        text: Str::of(alloc, text)?,
    })
}
