//! Words and files have one verdict.
ghost use Rattle.look_command.specs.Verdict.{OneVerdict};

/// Two verdicts of the same words and files are equal: a script and a log come to one thing, as they do for
/// `join_command`, and so does a log by its feeds.
pub fn one_verdict()
    ensures { OneVerdict }
{
    script_check::one_script();
    log_reader::one_run();
    log_reader::one_fault();
}
