//! Runs a script of the replication of two clusters.
#![tactic(auto)]

#[cfg(test)]
mod tests;

use rep_io::{StdSink, StdSource};
use rep_types::{Argv, Items, Memory, Status, Text};
use rep_vault::{MemVault, Outcome};
use script_runner::run;
use std::alloc::Global;
use std::process::ExitCode;
use std::{env, io};

// Words that aren't UTF-8 are none of a form that is served.
fn words_of(rt: &HostRuntime, alloc: Global) -> Result<Argv, Memory> {
    let mut words = Items::new(alloc);
    let Ok(args) = env::args(rt) else {
        return Ok(words);
    };
    for word in args.skip(1) {
        words.push(Text::new(alloc, word.as_str())?)?;
    }
    Ok(words)
}

// Serves the words, over two stores in memory.
fn serve(rt: &HostRuntime, alloc: Global) -> Result<Status, Memory> {
    let words = words_of(rt, alloc)?;
    let a = MemVault::new(alloc)?;
    let b = MemVault::new(alloc)?;
    let mut input = StdSource::new(rt.stdin());
    let mut out = StdSink::new(io::writer(rt));
    let Outcome { status, a: _, b: _ } = run(alloc, &words, &mut input, &mut out, a, b);
    Ok(status)
}

fn main(rt: HostRuntime) -> ExitCode {
    let alloc = rt.alloc();
    let status = match serve(&rt, alloc) {
        Ok(status) => status,
        Err(_) => Status::Memory,
    };
    if status != Status::Ok {
        let _ = eprintln!(rt; "{status}");
    }
    ExitCode::from(status.code())
}
