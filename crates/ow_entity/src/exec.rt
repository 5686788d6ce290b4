// What actions run.
ghost use Rattle.std.specs.Prelude.{◌≡◌, ◌≢◌, Ok, Err, IfOk, MatchResult};
ghost use Rattle.std.specs.Str.{IsUtf8};
ghost use Rattle.ow_entity.specs.Code.{program_name};
ghost use Rattle.ow_entity.specs.Fit.{IsFitText};

use crate::components::Components;
use crate::plain_code::PlainCode;
use crate::refusal::EntityRefusal;
use ow_names::FullName;
use ow_value::{MEGABYTE, NoMemory, PlainData, Str};
use std::alloc::Global;
use std::marker::Model;

/// What an action runs.
#[derive(Drop)]
pub enum Exec {
    /// The service gives what the code says.
    Plain { code: PlainCode },
    /// A program of the office runs.
    Program { code: ProgramName },
    /// Other actions run, one after another.
    Sequence { components: Components },
}

/// The name of a program of the office, of at most 1 MB.
#[derive(Drop)]
pub struct ProgramName {
    text: Str,
}

impl Model for ProgramName {
    ghost use Rattle.std.specs.Prelude.{List, ℕ};
    ghost use Rattle.ow_entity.specs.Fit.{IsFitText};

    ghost Value = { List ℕ };

    ghost view = { λ a. a.text };

    ghost invariant = { λ a. IsFitText a.text };
}

impl ProgramName {
    /// The name that the text is.
    pub fn read(alloc: Global, text: &str) -> Result<ProgramName, EntityRefusal>
        ensures { MatchResult result (λ n. program_name text.now ≡ Ok n)
            (λ e. e ≢ EntityRefusal.NoMemory → program_name text.now ≡ Err e) }
    {
        if text.len() as u64 > MEGABYTE {
            return Err(EntityRefusal::TooLarge);
        }
        Ok(ProgramName {
            text: Str::of(alloc, text)?,
        })
    }

    /// The text, lent.
    pub fn get(&self) -> &Str
        ensures value { result.now ≡ self.now }
        ensures fits { IsFitText self.now }
    {
        &self.text
    }
}

impl PlainData for ProgramName {
    fn same(&self, other: &ProgramName) -> bool {
        self.text.same(&other.text)
    }

    fn copy(&self, alloc: Global) -> Result<ProgramName, NoMemory> {
        Ok(ProgramName {
            text: self.text.copy(alloc)?,
        })
    }
}

impl Exec {
    ghost use Rattle.ow_entity.specs.Exec.{exec_kind, exec_code, components_of, is_sequence};
    ghost use Rattle.ow_entity.specs.FitAction.{IsFitExec};

    /// The kind, as a body names it.
    pub fn kind(&self) -> &'static str
        ensures { result.now ≡ exec_kind self.now }
    {
        match self {
            Exec::Plain { .. } => "plain:1",
            Exec::Program { .. } => "program:1",
            Exec::Sequence { .. } => "sequence",
        }
    }

    /// The text of the code, or the name of the program. A sequence has none.
    pub fn code(&self, alloc: Global) -> Result<Str, NoMemory>
        ensures { IfOk result (λ s. s ≡ exec_code self.now) }
    {
        match self {
            Exec::Plain { code } => code.get().copy(alloc),
            Exec::Program { code } => code.get().copy(alloc),
            Exec::Sequence { .. } => Str::of(alloc, ""),
        }
    }

    /// The actions that a sequence calls, one after another. Others have none.
    pub fn components(&self) -> &[FullName]
        ensures { result.now ≡ components_of self.now }
    {
        match self {
            Exec::Plain { .. } | Exec::Program { .. } => &[],
            Exec::Sequence { components } => components.get().as_slice(),
        }
    }

    /// Whether other actions run.
    pub fn is_sequence(&self) -> bool
        ensures { result ≡ is_sequence self.now }
    {
        match self {
            Exec::Plain { .. } | Exec::Program { .. } => false,
            Exec::Sequence { .. } => true,
        }
    }

    /// Makes known within which bounds it lies.
    pub fn known(&self)
        ensures code { IsUtf8 (exec_code self.now) }
        ensures fits { IsFitExec self.now }
    {
        match self {
            Exec::Plain { code } => {
                code.get().as_str();
            }
            Exec::Program { code } => {
                code.get().as_str();
            }
            Exec::Sequence { components } => components.known(),
        }
    }
}

impl PlainData for Exec {
    fn same(&self, other: &Exec) -> bool {
        match (self, other) {
            (Exec::Plain { code: a }, Exec::Plain { code: b }) => a.same(b),
            (Exec::Program { code: a }, Exec::Program { code: b }) => a.same(b),
            (Exec::Sequence { components: a }, Exec::Sequence { components: b }) => a.same(b),
            _ => false,
        }
    }

    fn copy(&self, alloc: Global) -> Result<Exec, NoMemory> {
        match self {
            Exec::Plain { code } => Ok(Exec::Plain {
                code: code.copy(alloc)?,
            }),
            Exec::Program { code } => Ok(Exec::Program {
                code: code.copy(alloc)?,
            }),
            Exec::Sequence { components } => Ok(Exec::Sequence {
                components: components.copy(alloc)?,
            }),
        }
    }
}
