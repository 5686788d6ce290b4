// Runs, each in a container of its own.
use ow_traits::{Kind, RunReply, Runner, Started};
use ow_value::{NoMemory, Pairs, Params, Str, Val, read_val};
use std::alloc::Global;
use std::test::Fail;

// The name and the path of each program.
const PROGRAMS: &str = "cat,/bin/cat
true,/bin/true
false,/bin/false
dd,/bin/dd
sh,/bin/sh
missing,/no/such/program
folder,/bin
";

/// The programs of the tests.
pub(crate) fn programs(alloc: Global) -> Result<Pairs, Fail> {
    let mut pairs = Vec::new(alloc);
    for row in PROGRAMS.lines() {
        let Some((name, path)) = row.split_once(',') else {
            return Err("no row")?;
        };
        pairs.push((Str::of(alloc, name)?, Str::of(alloc, path)?))?;
    }
    Ok(Pairs::from_vec(pairs)?)
}

/// The parameters that the text holds.
pub(crate) fn params_of(alloc: Global, text: &str) -> Result<Params, Fail> {
    match read_val(alloc, text.as_bytes())? {
        Val::Object(params) => Ok(params),
        _ => Err("no object")?,
    }
}

/// The reply to a run, or in place of its start or of its initialisation.
pub(crate) fn reply_of<R: Runner>(
    alloc: Global,
    runner: &mut R,
    kind: Kind,
    code: &str,
    params: &Params,
) -> Result<RunReply, NoMemory> {
    let code = Str::of(alloc, code)?;
    match runner.start(alloc, kind, 256)? {
        Started::Up(mut container) => {
            let reply = reply_in(alloc, runner, &mut container, kind, &code, params);
            runner.stop(container);
            reply
        }
        Started::Down(reply) => Ok(reply),
    }
}

fn reply_in<R: Runner>(
    alloc: Global,
    runner: &mut R,
    container: &mut R::Container,
    kind: Kind,
    code: &Str,
    params: &Params,
) -> Result<RunReply, NoMemory> {
    match runner.init(alloc, container, kind, code)? {
        Some(reply) => Ok(reply),
        None => runner.run(alloc, container, kind, code, params),
    }
}
