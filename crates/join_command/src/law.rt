//! Words and files have one verdict.
ghost use Rattle.join_command.specs.Verdict.{OneVerdict};

/// Two verdicts of the same words and files are equal: a script has one plan or one fault, and a log is that of one run
/// or has one line at fault.
pub fn one_verdict()
    ensures { OneVerdict }
{
    script_check::one_script();
    log_reader::one_run();
    log_reader::one_fault();
}
