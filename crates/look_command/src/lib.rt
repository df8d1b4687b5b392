//! The top call of `look`: what the words of the command line and the files come to, over any inputs and any sink.
//!
//! - `look_main` carries out the request that the words are, writes its output and answers a `Status` of
//!   `join_command`. Its contract says that output and status are those of the verdict on the words and the files
//!   (specs/Verdict, specs/Output, specs/Answer), that only the files of the request were fetched, in order, and why a
//!   fault is answered. Words and files have one verdict (`law`).
//! - `request_of` gives the request that the words are, for what a program tells people besides.
//!
//! A request has a file of its own, which says what its files come to: `auditing` for `audit`, `reacting` for
//! `reactions`, `explaining` for `why`. What loads files, writes refusals and counts writes is that of `join_command`.
//! A contract sees the files and the bytes written where the inputs and the sink tell them. Only tested: that the calls
//! answer something else than `NoMemory` where memory is ample.
#![tactic(auto)]

mod auditing;
mod explaining;
mod law;
mod output;
mod reacting;
mod reply;
mod request;
mod runs;
mod top;

pub use request::{AuditWords, ReactionsWords, Request, WhyWords, request_of};
pub use top::look_main;
