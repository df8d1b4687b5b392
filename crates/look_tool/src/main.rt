//! Looks at the log of a run: whether it is that of some feeds, which rows led to each reaction, and why messages wait.
//! What a person reads of a fault stands on standard error.
#![tactic(auto)]

mod note;

use crate::note::{tell, tell_no_memory};
use join_base::NoMemory;
use join_command::{Counted, Status};
use look_command::look_main;
use std::process::ExitCode;
use system_files::{FileInputs, OutSink, command_line};

fn main(rt: HostRuntime) -> ExitCode {
    let status = match command_line(&rt) {
        Ok(words) => {
            let mut inputs = FileInputs::new(&rt);
            let mut out = Counted::new(OutSink::new(rt.stdout()));
            let status = look_main(rt.alloc(), &words, &mut inputs, &mut out);
            let sink = out.into_sink();
            tell(&rt, &words, status, &inputs, &sink);
            status
        }
        Err(NoMemory) => {
            tell_no_memory(&rt);
            Status::NoMemory
        }
    };
    ExitCode::from(status.number())
}
