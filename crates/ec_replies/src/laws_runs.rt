//! The laws of runs, each the contract of a function.
ghost use Rattle.ec_replies.specs.RunLaws.{OutputTellsTheState, RunsAreOfLines, RunsGoOn, RunsStayWithinLimits, SessionsWithoutEffectAreUnseen, SessionsWithoutUpdatesAreUnseen, WithoutMemoryARunIsOne};

/// A run over lines and more lines is a run over the lines and, unless one of them quits, a run over more from where it
/// ended. So lines can be answered as they come.
pub fn runs_go_on_law()
    ensures { RunsGoOn }
{}

/// Lines without an assert, a retract, a commit or a question about the past have one possible output.
pub fn without_memory_a_run_is_one_law()
    ensures { WithoutMemoryARunIsOne }
{}

/// The output tells which updates were refused because memory ran out, and so the state: two runs over the same lines with
/// the same output leave the same state.
pub fn output_tells_the_state_law()
    ensures { OutputTellsTheState }
{}

/// After any lines the events are a history, and so is each list of the past; there are no more events, mentions and links than there
/// may be; no draft holds more updates than it may, the past keeps no more than there is room for, and no session watches more than it may.
pub fn runs_stay_within_limits_law()
    ensures { RunsStayWithinLimits }
{}

/// A run is one line by line, each line with its own text, and its output is the texts joined.
pub fn runs_are_of_lines_law()
    ensures { RunsAreOfLines }
{}

/// If a session never quits or watches, and none of its asserts, retracts, commits and unwatches is answered by `ok`, then the other
/// lines have the same replies without it. A long line belongs to no session. In a run from the first line on its unwatches are all
/// refused.
pub fn sessions_without_effect_are_unseen_law()
    ensures anywhere { SessionsWithoutEffectAreUnseen }
    ensures from_the_first_line { SessionsWithoutUpdatesAreUnseen }
{}
