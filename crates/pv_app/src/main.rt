//! The program `polydb`: the top call over any input, output and disks, and `main`, which gives it the standard ones, the current folder and threads.
#![tactic(auto)]

mod app;
mod command;
mod tour;
mod tour_end;
mod touring;

use crate::app::polydb;
use pv_cluster::IdleGate;
use pv_disk::FolderBay;
use pv_io::{StdSink, StdSource};
use pv_run::Status;
use std::alloc::AllocError;
use std::env;
use std::io::{self, ErrorKind};
use std::process::ExitCode;
use std::rt::Env;
use std::sync::Wait;
use std::thread::Threads;

fn main(rt: HostRuntime) -> ExitCode {
    let status = match words_of(&rt) {
        Ok(words) => start(&rt, &rt, &words),
        Err(e) if e.kind() == ErrorKind::OutOfMemory => Ok(Status::NoMemory),
        // Words that aren't text are no command.
        Err(_) => start(&rt, &rt, &[]),
    };
    ExitCode::from(status.unwrap_or(Status::NoMemory).code())
}

// An error is want of memory for the bay's hold on the runtime.
fn start(
    rt: &HostRuntime,
    threads: &(impl Threads + Wait + Sync),
    words: &[String],
) -> Result<Status, AllocError> {
    let mut source = StdSource::new(rt.stdin());
    let mut sink = StdSink::new(rt.stdout());
    let mut bay = FolderBay::new(rt.alloc(), rt.clone()?);
    Ok(polydb(
        threads,
        rt.alloc(),
        words,
        &mut source,
        &mut sink,
        &mut bay,
        &IdleGate,
    ))
}

// The words after the program's name.
fn words_of<R: Env + AllocGlobal>(rt: &R) -> io::Result<Vec<String>> {
    let mut words = Vec::new(rt.alloc());
    for word in env::args(rt)?.skip(1) {
        words.push(word)?;
    }
    Ok(words)
}

#[cfg(test)]
mod bay_tests;
#[cfg(test)]
mod live_tests;
#[cfg(test)]
mod tests;
#[cfg(test)]
mod upgrade_tests;
#[cfg(test)]
mod worked_faults;
#[cfg(test)]
mod worked_runs;
#[cfg(test)]
mod worked_traces;
