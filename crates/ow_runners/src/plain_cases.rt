// The cases of plain code.
ghost use Rattle.std.specs.Prelude.{◌≡◌, ◌↔◌, IfOk, IsTrue, option_map};
ghost use Rattle.ow_value.specs.Find.{find};
ghost use Rattle.ow_value.specs.Value.{items_of, members_of, object};
ghost use Rattle.ow_value.specs.View.{view};
ghost use Rattle.ow_entity.specs.PlainCode.{case_of, cases_in, cases_of};
ghost use Rattle.ow_runners.specs.Equality.{is_value};
ghost use Rattle.ow_runners.specs.Plain.{case_view, case_views};
ghost use Rattle.ow_runners.specs.PlainReply.{code_cases, fits, given, no_case, plain_reply};

use crate::fill::fill;
use ow_value::{
    Fields, NoMemory, Pair, Params, PlainData, Str, Val, Vals, ValueRefusal, copy, read_val, same,
    val_text,
};
use std::alloc::Global;
use std::marker::Model;

/// One case of plain code.
#[derive(Drop)]
pub(crate) struct PlainCase {
    // Which parameters it is for.
    pub(crate) when: Params,
    // The template of what it gives.
    pub(crate) give: Val,
}

/// A code, with its cases. Contracts see the code.
#[derive(Drop)]
pub(crate) struct PlainCases {
    code: Str,
    cases: Vec<PlainCase>,
}

impl Model for PlainCases {
    ghost use Rattle.std.specs.Prelude.{◌≡◌, List, ℕ};
    ghost use Rattle.ow_runners.specs.Plain.{case_views};
    ghost use Rattle.ow_runners.specs.PlainReply.{code_cases};

    ghost Value = { List ℕ };

    ghost view = { λ a. a.code };

    ghost invariant = { λ a. case_views a.cases.items ≡ code_cases a.code };
}

impl PlainCases {
    /// The cases of the code.
    pub(crate) fn read(alloc: Global, code: &Str) -> Result<PlainCases, NoMemory>
        ensures { IfOk result (λ r. r ≡ code.now) }
    {
        let cases = read_cases(alloc, code)?;
        let code = code.copy(alloc)?;
        Ok(PlainCases { code, cases })
    }

    /// Whether they are those of this code.
    pub(crate) fn are_of(&self, code: &Str) -> bool
        ensures { IsTrue result ↔ (self.now ≡ code.now) }
    {
        self.code.same(code)
    }

    /// What the code answers to the parameters.
    #[tactic(auto, unfolding(crate::specs::PlainReply::plain_reply))]
    pub(crate) fn reply(&self, alloc: Global, params: &Params) -> Result<Str, NoMemory>
        ensures { IfOk result (λ s. s ≡ plain_reply self.now params.now) }
    {
        let value = given(alloc, &self.cases, params)?;
        val_text(alloc, &value)
    }
}

fn read_cases(alloc: Global, code: &Str) -> Result<Vec<PlainCase>, NoMemory>
    ensures { IfOk result (λ r. case_views r.items ≡ code_cases code.now) }
{
    match read_val(alloc, code.as_str().as_bytes()) {
        Ok(value) => match cases_of(alloc, &value)? {
            Some(cases) => Ok(cases),
            None => Ok(Vec::new(alloc)),
        },
        Err(ValueRefusal::NoMemory) => Err(NoMemory),
        Err(_) => Ok(Vec::new(alloc)),
    }
}

fn cases_of(alloc: Global, code: &Val) -> Result<Option<Vec<PlainCase>>, NoMemory>
    ensures { IfOk result (λ o. option_map (λ r. case_views r.items) o ≡ cases_of (view code.now)) }
{
    match code {
        Val::Object(fields) => cases_field(alloc, fields),
        _ => Ok(None),
    }
}

#[tactic(auto, using(crate::proofs::Reading::name_count_of_object))]
fn cases_field(alloc: Global, fields: &Params) -> Result<Option<Vec<PlainCase>>, NoMemory>
    ensures { IfOk result (λ o. option_map (λ r. case_views r.items) o ≡ cases_of (object (members_of fields.now))) }
{
    if fields.len() != 1 {
        return Ok(None);
    }
    match fields.find("cases") {
        Some(Val::List(items)) => cases_in(alloc, items),
        _ => Ok(None),
    }
}

fn cases_in(alloc: Global, items: &Vals) -> Result<Option<Vec<PlainCase>>, NoMemory>
    ensures { IfOk result (λ o. option_map (λ r. case_views r.items) o ≡ cases_in (items_of items.now)) }
{
    let mut cases = Vec::new(alloc);
    for item in items.items() {
        let Some(case) = case_of(alloc, item)? else {
            return Ok(None);
        };
        cases.push(case)?;
    }
    Ok(Some(cases))
}

fn case_of(alloc: Global, item: &Val) -> Result<Option<PlainCase>, NoMemory>
    ensures { IfOk result (λ o. option_map case_view o ≡ case_of (view item.now)) }
{
    match item {
        Val::Object(fields) => case_fields(alloc, fields),
        _ => Ok(None),
    }
}

#[tactic(auto, using(crate::proofs::Reading::name_count_of_object, crate::proofs::Reading::members_back))]
fn case_fields(alloc: Global, fields: &Params) -> Result<Option<PlainCase>, NoMemory>
    ensures { IfOk result (λ o. option_map case_view o ≡ case_of (object (members_of fields.now))) }
{
    if fields.len() != 2 {
        return Ok(None);
    }
    match (fields.find("when"), fields.find("give")) {
        (Some(Val::Object(when)), Some(give)) => {
            let when = when.copy(alloc)?;
            let give = copy(alloc, give)?;
            Ok(Some(PlainCase { when, give }))
        }
        _ => Ok(None),
    }
}

// What the first case that fits gives.
fn given(alloc: Global, cases: &[PlainCase], params: &Params) -> Result<Val, NoMemory>
    ensures { IfOk result (λ v. view v ≡ given (case_views cases.now) params.now) }
{
    for case in cases {
        if fits(params, &case.when) {
            return fill(alloc, &case.give, params);
        }
    }
    no_case(alloc)
}

// Whether the parameters have each of these pairs.
fn fits(params: &Params, when: &Params) -> bool
    ensures { result ≡ fits params.now when.now }
{
    for pair in when.pairs() {
        if !has(params, pair) {
            return false;
        }
    }
    true
}

fn has(params: &Params, pair: &Pair) -> bool
    ensures { result ≡ is_value (view pair.now.value) (find pair.now.name params.now) }
{
    match params.find(pair.name.as_str()) {
        Some(value) => same(&pair.value, value),
        None => false,
    }
}

fn no_case(alloc: Global) -> Result<Val, NoMemory>
    ensures { IfOk result (λ v. view v ≡ no_case) }
{
    let mut fields = Fields::new(alloc);
    let text = Str::of(alloc, "No case fits.")?;
    fields.set(Str::of(alloc, "error")?, Val::Text(text))?;
    Ok(Val::Object(fields.into_params()?))
}
