//! The laws of replies, each the contract of a function. They speak of each theory and of each state.
ghost use Rattle.ec_replies.specs.Laws.{AbortsCloseADraft, BeginsOpenADraft, CommitsAreWhole, OnlyAcceptedLinesChange, OthersKeepADraft, PastQueriesIgnoreDrafts, QueriesChangeNothing, QueriesIgnoreDrafts, RefusedLinesChangeNothing, RepliesDependOnOwnDraft, UnwatchesEndAWatch, UpdatesAreMadeOrHeld, WatchesAreKept, WatchesShowInNotesAlone, WithoutMemoryAStepIsTheReply};

/// A reply to a line of a session depends on the events, on what the last update changed, on the draft of that session, on the past
/// and on what is watched, and the state after it does too. So a session never sees what another one holds.
pub fn replies_depend_on_own_draft_law()
    ensures { RepliesDependOnOwnDraft }
{}

/// A line of another session never changes the draft of a session, and neither does a long line.
pub fn others_keep_a_draft_law()
    ensures { OthersKeepADraft }
{}

/// An open draft changes no reply to a query, of the present or of the past, and a query changes nothing.
pub fn queries_ignore_drafts_law()
    ensures ignore { QueriesIgnoreDrafts }
    ensures past { PastQueriesIgnoreDrafts }
    ensures keep { QueriesChangeNothing }
{}

/// A line changes the state only if it is answered by `ok` or by `drafted`, or if it is a `watch` that is answered by intervals. A
/// refusal changes nothing.
pub fn only_accepted_lines_change_law()
    ensures accepted { OnlyAcceptedLinesChange }
    ensures refused { RefusedLinesChangeNothing }
{}

/// A commit makes all updates of its draft and closes it, or it leaves the state as it was.
pub fn commits_are_whole_law()
    ensures { CommitsAreWhole }
{}

/// An update is made where the draft is closed, and held where it is open and has room. Else it leaves the state as it was.
pub fn updates_are_made_or_held_law()
    ensures { UpdatesAreMadeOrHeld }
{}

/// A begin opens a draft that is closed, an abort closes it and drops what it held, and neither changes anything else.
pub fn begins_and_aborts_law()
    ensures begins { BeginsOpenADraft }
    ensures aborts { AbortsCloseADraft }
{}

/// If memory can't run out for a line, it is answered by its reply.
pub fn without_memory_a_step_is_the_reply_law()
    ensures { WithoutMemoryAStepIsTheReply }
{}

/// Of what other sessions watch, a reply to a line of a session shows the notes alone, which stand behind all else. Only an accepted
/// update has notes.
pub fn watches_show_in_notes_alone_law()
    ensures { WatchesShowInNotesAlone }
{}

/// A watch lets a property be watched, and an unwatch ends that. Both leave the state as it was where they are refused.
pub fn watches_and_unwatches_law()
    ensures watches { WatchesAreKept }
    ensures unwatches { UnwatchesEndAWatch }
{}
