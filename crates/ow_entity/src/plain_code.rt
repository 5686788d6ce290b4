// Plain code, and its form.
ghost use Rattle.std.specs.Prelude.{◌≡◌, ◌≢◌, IfOk, Ok, Err, MatchResult, is_some};
ghost use Rattle.ow_value.specs.Value.{items_of, members_of, object};
ghost use Rattle.ow_value.specs.View.{view};
ghost use Rattle.ow_entity.specs.Code.{plain_code};
ghost use Rattle.ow_entity.specs.Fit.{IsFitPlain};
ghost use Rattle.ow_entity.specs.PlainCode.{case_of, cases_in, cases_of, plain_cases};

use crate::field_name::FieldName;
use crate::refusal::EntityRefusal;
use ow_value::{MEGABYTE, NoMemory, Params, PlainData, Str, Val, Vals, ValueRefusal, read_val};
use std::alloc::Global;
use std::marker::Model;

/// The JSON text of an object whose one name is `cases`, a list of objects with just `when`, an object, and `give`.
/// It has at most 1 MB.
#[derive(Drop)]
pub struct PlainCode {
    text: Str,
}

impl Model for PlainCode {
    ghost use Rattle.std.specs.Prelude.{List, ℕ};
    ghost use Rattle.ow_entity.specs.Fit.{IsFitPlain};

    ghost Value = { List ℕ };

    ghost view = { λ a. a.text };

    ghost invariant = { λ a. IsFitPlain a.text };
}

impl PlainCode {
    /// The code that the text is.
    pub fn read(alloc: Global, text: &str) -> Result<PlainCode, EntityRefusal>
        ensures { MatchResult result (λ c. plain_code text.now ≡ Ok c)
            (λ e. e ≢ EntityRefusal.NoMemory → plain_code text.now ≡ Err e) }
    {
        if text.len() as u64 > MEGABYTE {
            return Err(EntityRefusal::TooLarge);
        }
        if !is_plain_text(alloc, text)? {
            return Err(EntityRefusal::WrongType {
                name: FieldName::Code,
            });
        }
        Ok(PlainCode {
            text: Str::of(alloc, text)?,
        })
    }

    /// The text, lent.
    pub fn get(&self) -> &Str
        ensures value { result.now ≡ self.now }
        ensures fits { IsFitPlain self.now }
    {
        &self.text
    }
}

impl PlainData for PlainCode {
    fn same(&self, other: &PlainCode) -> bool {
        self.text.same(&other.text)
    }

    fn copy(&self, alloc: Global) -> Result<PlainCode, NoMemory> {
        Ok(PlainCode {
            text: self.text.copy(alloc)?,
        })
    }
}

// Whether the text has the form of plain code.
fn is_plain_text(alloc: Global, code: &str) -> Result<bool, NoMemory>
    ensures { IfOk result (λ b. b ≡ is_some (plain_cases code.now)) }
{
    match read_val(alloc, code.as_bytes()) {
        Ok(v) => Ok(is_plain(&v)),
        Err(ValueRefusal::NoMemory) => Err(NoMemory),
        Err(_) => Ok(false),
    }
}

fn is_plain(code: &Val) -> bool
    ensures { result ≡ is_some (cases_of (view code.now)) }
{
    match code {
        Val::Object(fields) => have_cases(fields),
        _ => false,
    }
}

#[tactic(auto, using(crate::proofs::PlainCodeLaws::name_count_of_object))]
fn have_cases(fields: &Params) -> bool
    ensures { result ≡ is_some (cases_of (object (members_of fields.now))) }
{
    if fields.len() != 1 {
        return false;
    }
    match fields.find("cases") {
        Some(Val::List(cases)) => are_cases(cases),
        _ => false,
    }
}

fn are_cases(cases: &Vals) -> bool
    ensures { result ≡ is_some (cases_in (items_of cases.now)) }
{
    for case in cases.items() {
        if !is_case(case) {
            return false;
        }
    }
    true
}

fn is_case(case: &Val) -> bool
    ensures { result ≡ is_some (case_of (view case.now)) }
{
    match case {
        Val::Object(fields) => have_case(fields),
        _ => false,
    }
}

#[tactic(auto, using(crate::proofs::PlainCodeLaws::name_count_of_object))]
fn have_case(fields: &Params) -> bool
    ensures { result ≡ is_some (case_of (object (members_of fields.now))) }
{
    if fields.len() != 2 {
        return false;
    }
    match fields.find("when") {
        Some(Val::Object(_)) => fields.find("give").is_some(),
        _ => false,
    }
}
