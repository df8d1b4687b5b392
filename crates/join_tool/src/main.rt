//! Runs a script of actors with join patterns on feeds, and prints the log of the run. Other commands check a script
//! and print its plan, list definitions that can never fire, check a log against its script, or run a building of its
//! own and print a summary. What a person reads of a fault stands on standard error.
#![tactic(auto)]

mod note;
mod panel;
mod remark;
mod wanted;
mod watched;

use crate::note::{tell, tell_no_memory};
use crate::panel::Panel;
use crate::watched::WatchedSink;
use join_base::NoMemory;
use join_command::{Counted, FreeGate, Status, join_main};
use std::process::ExitCode;
use system_files::{FileInputs, OutSink, command_line};

fn main(rt: HostRuntime) -> ExitCode {
    let status = match command_line(&rt) {
        Ok(words) => {
            let mut inputs = FileInputs::new(&rt);
            let mut out = Counted::new(WatchedSink::new(rt.alloc(), OutSink::new(rt.stdout())));
            let mut panel = Panel::new(rt.alloc());
            let status = join_main(
                &rt,
                rt.alloc(),
                &words,
                &mut inputs,
                &mut out,
                &FreeGate,
                &mut panel,
            );
            let sink = out.into_sink();
            tell(&rt, &words, status, &inputs, &sink);
            status
        }
        Err(NoMemory) => {
            tell_no_memory(&rt);
            Status::NoMemory
        }
    };
    ExitCode::from(status.number())
}
