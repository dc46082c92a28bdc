//! xmstudio: plays songs of the Extended Module format.
//!
//! This crate is the outermost layer: it reads the words, makes the files that they name, and hands
//! both to `run_plain` of `ft_run`, which does all the rest.
#![tactic(auto)]

mod outside;
mod running;
mod words;

use ft_run::Status;
use running::run_args;
use std::env;
use std::process::ExitCode;

fn main(rt: HostRuntime) -> ExitCode {
    let ran = run_args(rt, env::args(&rt));
    if ran.status != Status::Done {
        let _ = eprintln!(rt; "xmstudio: {}", ran.status);
    }
    ran.exit_code()
}
