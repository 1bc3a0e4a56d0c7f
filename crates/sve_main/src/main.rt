//! `svserve`: runs a recorded session and reports its history and every answer.
#![tactic(auto)]

use std::alloc::{AllocError, Global};
use std::process::ExitCode;
use std::sync::Wait;
use std::thread::Threads;
use std::{env, io};
use sve_io::{RealIn, RealOut, Sink, Source};
use sve_lint::{Deep, Rule, Unconnected};
use sve_serve::{NoGate, Status, complaint, exit_code, serve};

/// The words behind the program's name. Where one is no UTF-8 there are none, which asks for nothing.
fn spoken_words(rt: &HostRuntime) -> Result<Vec<String>, AllocError> {
    match env::args(rt) {
        Ok(args) => args.skip(1).collect(rt.alloc()),
        Err(error) if error.kind() == io::ErrorKind::InvalidData => Ok(Vec::new(rt.alloc())),
        Err(_) => Err(AllocError),
    }
}

/// Runs with these words over this source and this sink, with both rules of lint.
fn serve_with_rules<R, S, K>(
    rt: &R,
    alloc: Global,
    words: &[String],
    source: &mut S,
    sink: &mut K,
) -> Result<Status, AllocError>
where
    R: Threads + Wait + Sync,
    S: Source,
    K: Sink,
{
    let mut rules: Vec<Box<dyn Rule>> = Vec::new(alloc);
    rules.push(Box::new(alloc, Unconnected::new(alloc))?)?;
    rules.push(Box::new(alloc, Deep::new(alloc))?)?;
    Ok(serve(rt, alloc, words, source, sink, rules, &NoGate))
}

fn main(rt: HostRuntime) -> ExitCode {
    let status = match spoken_words(&rt) {
        Ok(words) => {
            let mut source = RealIn::new(rt.stdin());
            let mut sink = RealOut::new(rt.stdout());
            let served = serve_with_rules(&rt, rt.alloc(), &words, &mut source, &mut sink);
            served.unwrap_or(Status::NoMemory)
        }
        Err(AllocError) => Status::NoMemory,
    };
    if let Some(line) = complaint(status) {
        // Where standard error fails too, the exit status still tells.
        let _ = eprintln!(rt; "{line}");
    }
    ExitCode::from(exit_code(status))
}
