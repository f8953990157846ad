//! The laws of the steps that lines may take, each the contract of a function.
ghost use Rattle.ec_sessions.specs.StepLaws.{CommitsTakeTheirBatch, EventsTakeAStepEach, HeldUpdatesTakeNoStep, OtherLinesTakeNoStep, PastQuestionsTakeTheirWay, ReasonsTakeTheirSteps};

/// A line that changes no event, lists none, names none as a cause and asks for no list of the past takes no step: what it is answered is read off the
/// caches.
pub fn other_lines_take_no_step_law()
    ensures { OtherLinesTakeNoStep }
{}

/// To list the events takes one step for each, and to tell a reason takes two for each event at its instants.
pub fn queries_on_events_take_their_steps_law()
    ensures events { EventsTakeAStepEach }
    ensures reasons { ReasonsTakeTheirSteps }
{}

/// An update takes no step while its draft is open, and a commit takes the steps of the whole draft as one batch.
pub fn drafts_take_their_steps_at_the_commit_law()
    ensures held { HeldUpdatesTakeNoStep }
    ensures commit { CommitsTakeTheirBatch }
{}

/// A question about the past takes the way to the list that it asks about, and the steps of its query there; about the list that is
/// viewed, those of the query alone.
pub fn past_questions_take_their_way_law()
    ensures { PastQuestionsTakeTheirWay }
{}
