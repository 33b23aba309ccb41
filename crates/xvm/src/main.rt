// The program: its words, standard input and standard output, handed to the top call.
#![tactic(auto)]

use std::io::{BufWriter, ErrorKind};
use std::process::ExitCode;
use std::sync::Wait;
use std::thread::Threads;
use std::{env, io};
use xv_base::Status;
use xv_io::{StdSink, StdSource};
use xv_run::top_run;
use xv_shared::FreeGate;
use xv_top::{Left, top};

fn main(rt: HostRuntime) -> ExitCode {
    ExitCode::from(run(&rt, &rt).unwrap_or(Status::NoMemory).code())
}

/// Runs the program; none for want of memory before it begins. The runtime starts threads and waits only in `main`, so for these
/// it is taken apart.
fn run<X: Threads + Wait + Sync>(threads: &X, rt: &HostRuntime) -> Option<Status> {
    let words = words(rt)?;
    let mut input = StdSource::new(rt.reader());
    let mut output = StdSink::new(BufWriter::new(rt.alloc(), io::writer(rt)).ok()?);
    let mut left = Left::Nothing;
    let alloc = rt.alloc();
    Some(match words.as_slice() {
        [word, ..] if word.as_str() == "run" => {
            top_run(
                threads,
                alloc,
                &words,
                &mut input,
                &mut output,
                &FreeGate,
                &mut left,
            )
        }
        _ => top(alloc, &words, &mut input, &mut output, &mut left),
    })
}

/// The words behind the program's name. A word that is no text makes a command line that no command has: it is
/// answered by no words at all.
fn words(rt: &HostRuntime) -> Option<Vec<String>> {
    let mut words = Vec::new(rt.alloc());
    match env::args(rt) {
        Ok(all) => {
            for word in all.skip(1) {
                words.push(word).ok()?;
            }
        }
        Err(error) if error.kind() == ErrorKind::OutOfMemory => return None,
        Err(_) => {}
    }
    Some(words)
}
