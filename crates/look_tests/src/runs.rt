//! Logs whose reactions are shown, and of which it is said why messages wait.
use crate::calls::{Case, all_give};
use join_command::Status;
use std::test::Fail;

const CASES: &[Case<'static>] = &[
    (
        &["reactions", "s", "log", "m"],
        Status::Done,
        b"m 2 at 2 from feed 1 b(2)\nfire rule 1 take 1,2\nprint \"hit 12\"\n\
          row m 1 at 1 from feed 1 a(1)\nrow m 2 at 2 from feed 1 b(2)\n",
    ),
    (&["reactions", "s", "log", "n"], Status::Done, b""),
    (
        &["reactions", "s", "once"],
        Status::LogRefused,
        b"refused log line 6 Differs\n",
    ),
    (
        &["why", "s", "log", "n"],
        Status::Done,
        b"1 a(9); no rule takes it\n",
    ),
    (&["why", "s", "log", "m"], Status::Done, b"nothing waits\n"),
    (
        &["why", "s", "log", "m", "1"],
        Status::Done,
        b"1 a(1) was taken by rule 1 at arrival 2\n",
    ),
    (
        &["why", "s", "log", "k"],
        Status::ScriptRefused,
        b"refused actor\n",
    ),
    (
        &["why", "s", "log", "n", "0"],
        Status::Usage,
        b"refused usage\n",
    ),
];

#[test]
fn runs_are_told_of(rt: HostRuntime) -> Result<(), Fail> {
    assert!(rt; all_give(rt.alloc(), CASES)?);
    Ok(())
}
