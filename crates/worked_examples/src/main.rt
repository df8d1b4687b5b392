//! Runs the program on worked examples over files in memory, and tells where it prints something else than the tables
//! say, or ends with another status.
//!
//! The tables stand in the modules by what they are about, and `telling` goes over them. Where the log of a run varies
//! with the threads, the tables list all that are right. Each log that is printed or listed is replayed too, and is to
//! be accepted with its arrivals. Nothing is proved here but that it is safe, and ends where `join_main` does.
#![tactic(auto)]

mod asked;
mod building;
mod changed;
mod example;
mod feeds;
mod files;
mod logs;
mod made;
mod runs;
mod scripts;
mod several;
mod telling;
mod varying;
mod watched;
mod words;

use std::io;

fn main(rt: HostRuntime) -> io::Result<()> {
    let alloc = rt.alloc();
    let mut all = words::are_right(&rt, alloc);
    all &= scripts::are_right(&rt, alloc);
    all &= files::are_right(&rt, alloc);
    all &= feeds::are_right(&rt, alloc);
    all &= runs::are_right(&rt, alloc);
    all &= asked::are_right(&rt, alloc);
    all &= watched::are_right(&rt, alloc);
    all &= several::are_right(&rt, alloc);
    all &= varying::are_right(&rt, alloc);
    all &= logs::are_right(&rt, alloc);
    all &= changed::are_right(&rt, alloc);
    all &= building::are_right(&rt, alloc);
    all &= made::are_right(&rt, alloc);
    if all {
        println!(rt; "each of them comes to what it should")
    } else {
        println!(rt; "some of them come to something else")
    }
}
