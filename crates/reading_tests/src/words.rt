//! Lines of words, and the commands that they are.

use command_words::{
    Queueing, Request, RunOptions, RunWords, Setting, Verb, command_of, items_law,
};
use join_base::{NoMemory, Word, WordList};
use std::alloc::Global;

const VERBS: [Verb; 7] = [
    Verb::Run,
    Verb::Check,
    Verb::Replay,
    Verb::Load,
    Verb::Watch,
    Verb::Lint,
    Verb::Ask,
];

const SETTINGS: [Setting; 6] = [
    Setting::Workers,
    Setting::Ring,
    Setting::Arrivals,
    Setting::Partials,
    Setting::Monitors,
    Setting::Pool,
];

const USUAL: RunOptions = RunOptions {
    workers: 4,
    ring: 64,
    arrivals: 50_000,
    partials: 65_536,
    pool: Queueing::Queue,
};

const RING_5: RunOptions = RunOptions { ring: 5, ..USUAL };

const WORKERS_3: RunOptions = RunOptions {
    workers: 3,
    ..USUAL
};

const LEAST: RunOptions = RunOptions {
    workers: 1,
    ring: 1,
    arrivals: 1,
    partials: 1,
    pool: Queueing::Queue,
};

const MOST: RunOptions = RunOptions {
    workers: 64,
    ring: 4096,
    arrivals: 1_000_000,
    partials: 1_000_000,
    pool: Queueing::Steal,
};

// The words of a line, which spaces part.
fn words_of(alloc: Global, line: &str) -> Result<WordList, NoMemory> {
    let mut words = WordList::new(alloc);
    for word in line.split_whitespace() {
        words.push(Word::from_text(alloc, word)?)?;
    }
    Ok(words)
}

// Whether the line is a command, where these are built.
fn is_command(
    alloc: Global,
    verbs: &[Verb],
    settings: &[Setting],
    line: &str,
) -> Result<bool, NoMemory> {
    let words = words_of(alloc, line)?;
    let request = command_of(alloc, verbs, settings, &words)?;
    Ok(request.is_some())
}

fn is_any_command(alloc: Global, verbs: &[Verb], settings: &[Setting], lines: &[&str]) -> bool {
    for line in lines {
        if is_command(alloc, verbs, settings, line) != Ok(false) {
            return true;
        }
    }
    false
}

const USAGE: &[&str] = &[
    "run --ring -5 s f",
    "run --ring -0 s f",
    "run --ring 5x s f",
    "run --ring= s f",
    "run --ring 18446744073709551617 s f",
    "run --ring 5 --ring=5 s f",
    "run --rin 5 s f",
    "run --Ring 5 s f",
    "run -ring 5 s f",
    "run --ring -- s f",
    "run s f --ring",
    "run --workers +1 s f",
    "run --workers=-1 s f",
    "run --workers 4 --workers=4 s f",
    "run --worker 4 s f",
    "run --monitors 1 s f",
    "run --pool other s f",
    "run s f -x",
    "run -- s",
    "--ring 5 run s f",
    "runs s f",
    "check",
    "check --workers 4 s",
    "replay --workers 4 s l",
    "replay s l m",
    "watch --monitors 0 s f",
    "watch --monitors 9 s f",
    "watch --pool queue s f",
    "watch s",
    "ask --monitors 1 s f",
    "ask s",
];

// Lines that are no command where the options of rings and workers and most commands are not built.
const NOT_BUILT: &[&str] = &[
    "replay s l",
    "run --ring 5 s f",
    "run --ring=5 s f",
    "run --workers 4 s f",
];

fn other_lines() -> &'static [&'static str] {
    USAGE
}

fn lines_not_built() -> &'static [&'static str] {
    NOT_BUILT
}

// Whether only the command with a built option is one, where few are built.
fn are_few_commands(alloc: Global) -> bool {
    let verbs = [Verb::Run, Verb::Check];
    let settings = [Setting::Arrivals, Setting::Partials];
    let line = "run --arrivals=7 s f";
    !is_any_command(alloc, &verbs, &settings, lines_not_built())
        && is_command(alloc, &verbs, &settings, line) == Ok(true)
}

#[test]
fn other_lines_are_no_command(rt: HostRuntime) {
    let is_none = !is_any_command(rt.alloc(), &VERBS, &SETTINGS, other_lines());
    assert!(rt; is_none && are_few_commands(rt.alloc()));
}

// A command on the script s, the feed f and the log l.
#[derive(Clone, Copy)]
enum Wanted {
    Run(RunOptions),
    Check,
    Replay,
    Load(u32),
    Watch(u32),
    Lint,
    Ask,
}

const TAKEN: &[(&str, Wanted)] = &[
    ("run s f", Wanted::Run(USUAL)),
    ("run --ring 5 s f", Wanted::Run(RING_5)),
    ("run --ring=05 s f", Wanted::Run(RING_5)),
    ("run s f --ring 5", Wanted::Run(RING_5)),
    ("run s --ring 5 f", Wanted::Run(RING_5)),
    ("run --ring 5 -- s f", Wanted::Run(RING_5)),
    ("run --workers=3 s f", Wanted::Run(WORKERS_3)),
    ("run --workers 003 s f", Wanted::Run(WORKERS_3)),
    (
        "run s f --workers=0000000000000000000003",
        Wanted::Run(WORKERS_3),
    ),
    ("run --ring=64 s --workers 3 -- f", Wanted::Run(WORKERS_3)),
    (
        "run --workers 1 --ring 1 --arrivals 1 --partials=1 --pool queue s f",
        Wanted::Run(LEAST),
    ),
    (
        "run s --pool=steal --partials 1000000 --arrivals 1000000 --ring 4096 f --workers 64",
        Wanted::Run(MOST),
    ),
    ("check s", Wanted::Check),
    ("replay s l", Wanted::Replay),
    ("load 03", Wanted::Load(3)),
    ("load 20000", Wanted::Load(20_000)),
    ("watch s f", Wanted::Watch(1)),
    ("watch s --monitors 8 f", Wanted::Watch(8)),
    ("lint s", Wanted::Lint),
    ("ask s f", Wanted::Ask),
];

fn is_run(run: &RunWords<'_>, options: &RunOptions) -> bool {
    match run.feeds.as_slice() {
        [feed] => { run.script.as_str() == "s" && feed.as_str() == "f" && run.options == *options }
        _ => false,
    }
}

fn is_wanted(request: &Request<'_>, wanted: &Wanted) -> bool {
    match (request, wanted) {
        (Request::Run(run), Wanted::Run(options)) => is_run(run, options),
        (Request::Check { script }, Wanted::Check) => script.as_str() == "s",
        (Request::Replay { script, log }, Wanted::Replay) => {
            script.as_str() == "s" && log.as_str() == "l"
        }
        (Request::Load { rows }, Wanted::Load(count)) => rows == count,
        (Request::Watch { run, monitors }, Wanted::Watch(count)) => {
            is_run(run, &USUAL) && monitors == count
        }
        (Request::Lint { script }, Wanted::Lint) => script.as_str() == "s",
        (Request::Ask(run), Wanted::Ask) => is_run(run, &USUAL),
        _ => false,
    }
}

fn is_taken(alloc: Global, line: &str, wanted: &Wanted) -> Result<bool, NoMemory> {
    let words = words_of(alloc, line)?;
    match command_of(alloc, &VERBS, &SETTINGS, &words)? {
        Some(request) => Ok(is_wanted(&request, wanted)),
        None => Ok(false),
    }
}

fn are_taken(alloc: Global, lines: &[(&str, Wanted)]) -> bool {
    for (line, wanted) in lines {
        if is_taken(alloc, line, wanted) != Ok(true) {
            return false;
        }
    }
    true
}

fn taken_lines() -> &'static [(&'static str, Wanted)] {
    TAKEN
}

// Words behind two dashes name files, and so does one dash.
fn are_dashes_files(alloc: Global) -> Result<bool, NoMemory> {
    let words = words_of(alloc, "run - -- -x --ring=5 --")?;
    match command_of(alloc, &VERBS, &SETTINGS, &words)? {
        Some(Request::Run(run)) => Ok(is_run_of_dashes(&run)),
        _ => Ok(false),
    }
}

fn is_run_of_dashes(run: &RunWords<'_>) -> bool {
    match run.feeds.as_slice() {
        [first, second, third] => {
            run.script.as_str() == "-"
                && first.as_str() == "-x"
                && second.as_str() == "--ring=5"
                && third.as_str() == "--"
                && run.options == USUAL
        }
        _ => false,
    }
}

#[test]
fn each_command_has_its_words(rt: HostRuntime) {
    items_law();
    let all = are_taken(rt.alloc(), taken_lines()) && are_dashes_files(rt.alloc()) == Ok(true);
    assert!(rt; all);
}
