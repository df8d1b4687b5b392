//! What `./look` shows of the logs of the examples.

use crate::example::{ROOM, is_held, words_of};
use join_base::{MemorySink, NoMemory};
use join_command::Counted;
use look_command::look_main;
use std::alloc::Global;
use std::rt::Files;
use system_files::FileInputs;

/// What the words show, to the byte: the file that holds it, and the words. Nothing here depends on threads.
pub const LOOKED: &[(&str, &[&str])] = &[
    (
        "guide/10.audit",
        &["audit", "guide/10.join", "guide/10.log", "guide/10.feed"],
    ),
    (
        "guide/10.reactions",
        &["reactions", "guide/10.join", "guide/10.log"],
    ),
    (
        "guide/11.waits",
        &["why", "guide/11.join", "guide/11.log", "home"],
    ),
    (
        "guide/11.why",
        &["why", "guide/11.join", "guide/11.log", "home", "4"],
    ),
    ("alarm.reactions", &["reactions", "alarm.join", "alarm.log"]),
    (
        "door_alarm.audit",
        &[
            "audit",
            "door_alarm.join",
            "door_alarm_changed.log",
            "door_alarm.feed",
        ],
    ),
    (
        "three_mistakes.why",
        &[
            "why",
            "three_mistakes.join",
            "three_mistakes.log",
            "entrance",
            "1",
        ],
    ),
];

/// Whether the words show what the file holds.
pub fn is_shown<R: Files>(
    rt: &R,
    alloc: Global,
    texts: &[&str],
    file: &str,
) -> Result<bool, NoMemory> {
    let words = words_of(alloc, texts)?;
    let mut out = Counted::new(MemorySink::new(alloc, ROOM, ROOM)?);
    let mut inputs = FileInputs::new(rt);
    let _ = look_main(alloc, &words, &mut inputs, &mut out);
    is_held(rt, alloc, file, out.into_sink().bytes())
}
