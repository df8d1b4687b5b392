//! Logs that are audited against feeds.
use crate::calls::{Case, all_give};
use join_command::Status;
use std::test::Fail;

const CASES: &[Case<'static>] = &[
    (&["audit", "s", "log", "f"], Status::Done, b"accepted 3\n"),
    (
        &["audit", "s", "twice", "f"],
        Status::LogRefused,
        b"refused log line 4 feed 1 row 3\nlog 2 at 2 from feed 1 b(3)\nrow m b(2)\n",
    ),
    (
        &["audit", "s", "once", "f"],
        Status::LogRefused,
        b"refused log line 6 Differs\n",
    ),
    (
        &["audit", "s", "log", "longer"],
        Status::LogRefused,
        b"refused log line 7 feed 1 row 5\nlog end running left - partials 1\nrow m a(3)\n",
    ),
    (
        &["audit", "s", "log", "shorter"],
        Status::LogRefused,
        b"refused log line 4 feed 1 no row\nlog 2 at 2 from feed 1 b(2)\n",
    ),
    (
        &["audit", "s", "log", "f", "empty"],
        Status::LogRefused,
        b"refused log line 1 feeds 1\n",
    ),
    (
        &["audit", "s", "log", "other"],
        Status::FeedRefused,
        b"refused feed 1 row 1 UnknownActor\n",
    ),
    (&["audit", "s", "log"], Status::Usage, b"refused usage\n"),
    (&["audit", "s", "gone", "f"], Status::ReadFault, b""),
];

#[test]
fn audits_tell_the_first_difference(rt: HostRuntime) -> Result<(), Fail> {
    assert!(rt; all_give(rt.alloc(), CASES)?);
    Ok(())
}
