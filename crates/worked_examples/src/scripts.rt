//! Scripts that are refused by each command, scripts that are checked, and findings on scripts.

use crate::example::{CHECK, EQUAL, PAIR, PAIRS, REPLAY, REPLIES, RUN, each_comes_to};
use crate::telling::{counted, told};
use join_base::NoMemory;
use join_command::Status;
use std::alloc::Global;
use std::sync::Wait;
use std::thread::Threads;

const LINT: &[&str] = &["lint", "script"];

// A name, a script, and what is printed.
type Script = (&'static str, &'static [u8], &'static [u8]);

// Scripts that can't be read.
const UNREAD: &[Script] = &[
    (
        "cut after messages",
        b"message a(x: int) message b(x: int) ",
        b"refused script 36 BadSyntax\n",
    ),
    (
        "cut before last brace",
        b"message a(x: int) message b(x: int) actor m { when a(x) & b(y) { print \"hit \" x y; } ",
        b"refused script 85 BadSyntax\n",
    ),
    (
        "cut in first word",
        b"messa",
        b"refused script 0 BadSyntax\n",
    ),
    (
        "cut in pattern",
        b"message a(x: int) message b(x: int) actor m { when a(x) &",
        b"refused script 57 BadSyntax\n",
    ),
    (
        "cut in text",
        b"message a(x: int) message b(x: int) actor m { when a(x) & b(y) { print \"hi",
        b"refused script 71 BadToken\n",
    ),
    (
        "cut in type",
        b"message a(x: in",
        b"refused script 13 BadSyntax\n",
    ),
    (
        "name too long",
        b"message kkkkkkkkkkkkkkkkkkkkkkkkkkkkkkkkkkkkkkkkkkkkkkkkkkkkkkkkkkkkkkkkk(x: int) actor m { }",
        b"refused script 8 BadToken\n",
    ),
    ("script empty", b"", b"refused script 0 BadSyntax\n"),
    (
        "script missing pattern",
        b"message a(x: int) actor m { when a(x) & { } }",
        b"refused script 40 BadSyntax\n",
    ),
    (
        "script no text",
        b"message \xFF",
        b"refused script 8 NotText\n",
    ),
    (
        "script single equals",
        b"message a(x: int) actor m { when a(x) if x = 1 { } }",
        b"refused script 43 BadToken\n",
    ),
    (
        "script without actor",
        b"message a(x: int)",
        b"refused script 17 BadSyntax\n",
    ),
    (
        "thirty three negations",
        b"message a(x: int) actor m { when a(x) if !!!!!!!!!!!!!!!!!!!!!!!!!!!!!!!!!x == 1 { } }",
        b"refused script 73 BadSyntax\n",
    ),
    (
        "fault of reading before one of names",
        b"message a(x: int) actor m { when b(x) { } } }",
        b"refused script 44 BadSyntax\n",
    ),
];

// Scripts with a fault of names, types or numbers.
const MISTAKEN: &[Script] = &[
    (
        "reply to no pattern",
        b"message q(x: int) actor m { when q(x) { reply 2 x; } }",
        b"refused script 46 BadReply\n",
    ),
    (
        "reply twice",
        b"message q(x: int) actor m { when q(x) { reply 1 x; reply 1 x; } }",
        b"refused script 57 BadReply\n",
    ),
    (
        "reply twice around a print",
        b"message a(x: int) actor m { when a(x) { reply 1 x; print x; reply 1 x; } }",
        b"refused script 66 BadReply\n",
    ),
    (
        "script ninth pattern",
        b"message a(x: int) actor m { when a(x1) & a(x2) & a(x3) & a(x4) & a(x5) & a(x6) & a(x7) & a(x8) \
          & a(x9) { } }",
        b"refused script 97 TooMany\n",
    ),
    (
        "script stop not last",
        b"message a(x: int) actor m { when a(x) { stop; stop; } }",
        b"refused script 40 StopNotLast\n",
    ),
    (
        "script unknown actor",
        b"message a(x: int) actor m { when a(x) { post n a(x); } }",
        b"refused script 45 UnknownActor\n",
    ),
    (
        "script unknown kind",
        b"message a(x: int) actor m { when b(x) { } }",
        b"refused script 33 UnknownMessage\n",
    ),
    (
        "script unknown variable",
        b"message a(x: int) actor m { when a(x) if y == 1 { } }",
        b"refused script 41 UnknownName\n",
    ),
    (
        "script variable twice",
        b"message a(x: int) message b(x: int) actor m { when a(x) & b(x) { } }",
        b"refused script 60 TwiceDeclared\n",
    ),
    (
        "script wrong count",
        b"message a(x: int) actor m { when a(x, y) { } }",
        b"refused script 33 WrongCount\n",
    ),
    (
        "script wrong type",
        b"message a(x: int) actor m { when a(x) if x == \"k\" { } }",
        b"refused script 46 WrongType\n",
    ),
    (
        "window of zero",
        b"message a(x: int) actor m { when a(x) within 0 { } }",
        b"refused script 45 BadWindow\n",
    ),
    (
        "window too wide",
        b"message a(x: int) actor m { when a(x) within 1000001 { } }",
        b"refused script 45 BadWindow\n",
    ),
];

// Scripts and the texts of their plans.
const PLANS: &[Script] = &[
    (
        "print plan",
        EQUAL,
        br#"message a(x: int)
message b(x: int)
actor m {
  when a(x) & b(y) if x == y {
    print "hit " x y;
  }
}
"#,
    ),
    (
        "print plan without a guard",
        PAIRS,
        br#"message a(x: int)
message b(x: int)
actor m {
  when a(x) & b(y) {
    print "hit " x y;
  }
}
"#,
    ),
    (
        "print reply",
        REPLIES,
        br#"message q(x: int)
actor m {
  when q(x) {
    reply 1 x + 1;
  }
}
"#,
    ),
    (
        "print window",
        b"message a(x: int) message b(x: int) actor m { when a(x) & b(y) within 2 if x == y { } }",
        br#"message a(x: int)
message b(x: int)
actor m {
  when a(x) & b(y) within 2 if x == y {
  }
}
"#,
    ),
    (
        "thirty two negations",
        b"message a(x: int) actor m { when a(x) if !!!!!!!!!!!!!!!!!!!!!!!!!!!!!!!!x == 1 { } }",
        br#"message a(x: int)
actor m {
  when a(x) if !!!!!!!!!!!!!!!!!!!!!!!!!!!!!!!!x == 1 {
  }
}
"#,
    ),
];

// Scripts and the findings on them.
const FINDINGS: &[Script] = &[
    ("lint nothing to tell", PAIRS, b"lint 0\n"),
    (
        "lint shadowed",
        b"message a(x: int) message b(x: int) actor m { when a(x) & b(y) { } when a(x) & b(y) { } }",
        b"shadowed m rule 2 by 1\nlint 1\n",
    ),
    (
        "lint idle",
        b"message a(x: int) message b(x: int) actor m { when a(x) { print \"bye\"; stop; } }",
        b"idle b\nlint 1\n",
    ),
    (
        "lint narrow",
        b"message a(x: int) message b(x: int) actor m { when a(x) & b(y) within 1 { } }",
        b"narrow m rule 1\nidle a\nidle b\nlint 3\n",
    ),
    (
        "lint shadowed and dead",
        b"message a(x: int) message b(x: int) actor m { when a(x) & b(y) if x > 3 { } when a(x) & b(y) if \
          x > 5 && y < 2 { } when a(x) if x < 1 && 1 < x { } }",
        b"shadowed m rule 2 by 1\ndead m rule 3\nlint 2\n",
    ),
];

// Whether each of the commands ends so on the script.
fn is_answered<R: Threads + Wait + Sync>(
    rt: &R,
    alloc: Global,
    commands: &[&[&str]],
    script: &[u8],
    status: Status,
    printed: &[u8],
) -> Result<bool, NoMemory> {
    let files = [("script", script), ("input", PAIR)];
    each_comes_to(rt, alloc, commands, &files, status, printed)
}

fn tell_scripts<R: Print + Threads + Wait + Sync>(
    rt: &R,
    alloc: Global,
    heading: &str,
    commands: &[&[&str]],
    status: Status,
    scripts: &[Script],
) -> bool {
    let mut all = true;
    for (name, script, printed) in scripts {
        let found = is_answered(rt, alloc, commands, script, status, printed);
        all &= told(rt, name, found);
    }
    counted(rt, heading, scripts.len(), all)
}

// Commands that read a script. `ask` and `watch` read it as `run` does.
const COMMANDS: &[&[&str]] = &[CHECK, LINT, REPLAY, RUN];

fn tell_refused<R: Print + Threads + Wait + Sync>(
    rt: &R,
    alloc: Global,
    heading: &str,
    scripts: &[Script],
) -> bool {
    tell_scripts(rt, alloc, heading, COMMANDS, Status::ScriptRefused, scripts)
}

fn unread_are_refused<R: Print + Threads + Wait + Sync>(rt: &R, alloc: Global) -> bool {
    tell_refused(rt, alloc, "scripts that can't be read", UNREAD)
}

fn mistaken_are_refused<R: Print + Threads + Wait + Sync>(rt: &R, alloc: Global) -> bool {
    tell_refused(rt, alloc, "scripts with another fault", MISTAKEN)
}

fn tell_plans<R: Print + Threads + Wait + Sync>(rt: &R, alloc: Global, scripts: &[Script]) -> bool {
    tell_scripts(
        rt,
        alloc,
        "plans of scripts",
        &[CHECK],
        Status::Done,
        scripts,
    )
}

fn plans_are_printed<R: Print + Threads + Wait + Sync>(rt: &R, alloc: Global) -> bool {
    tell_plans(rt, alloc, PLANS)
}

fn tell_findings<R: Print + Threads + Wait + Sync>(
    rt: &R,
    alloc: Global,
    scripts: &[Script],
) -> bool {
    tell_scripts(
        rt,
        alloc,
        "findings on scripts",
        &[LINT],
        Status::Done,
        scripts,
    )
}

fn findings_are_printed<R: Print + Threads + Wait + Sync>(rt: &R, alloc: Global) -> bool {
    tell_findings(rt, alloc, FINDINGS)
}

/// Tells of all scripts, and answers whether all of them come to what they should.
pub fn are_right<R: Print + Threads + Wait + Sync>(rt: &R, alloc: Global) -> bool {
    let unread = unread_are_refused(rt, alloc);
    let mistaken = mistaken_are_refused(rt, alloc);
    let plans = plans_are_printed(rt, alloc);
    let findings = findings_are_printed(rt, alloc);
    unread && mistaken && plans && findings
}
