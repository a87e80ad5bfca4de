//! The program: the words of the command line, standard input and standard output, and the number of a status.
#![tactic(auto)]

use std::process::ExitCode;
use std::rt::Env;
use std::{env, io};
use tv_outside::{StdSink, StdSource};
use tv_top::{Status, run};

fn main(rt: HostRuntime) -> ExitCode {
    let status = match words(&rt) {
        Ok(words) => run(
            rt.alloc(),
            &words,
            &mut StdSource::new(rt.stdin()),
            &mut StdSink::new(rt.stdout()),
        ),
        Err(_) => Status::Memory,
    };
    ExitCode::from(status.code())
}

/// The words without the program's own name.
fn words<R: Env + AllocGlobal>(rt: &R) -> io::Result<Vec<String>> {
    let mut words = Vec::new(rt.alloc());
    for word in env::args(rt)?.skip(1) {
        words.push(word)?;
    }
    Ok(words)
}
