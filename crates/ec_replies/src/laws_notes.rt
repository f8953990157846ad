//! The laws of notes, each the contract of a function.
ghost use Rattle.ec_replies.specs.NoteLaws.{FollowedNotesTellTheIntervals, NoWatchHasNoNote, NotesAreTold, NotesTellTheIntervals, SameEventsHaveNoNote};

/// An update that changes no event has no note, and neither has any update where no session watches a property.
pub fn no_note_where_nothing_differs_law()
    ensures same_events { SameEventsHaveNoNote }
    ensures no_watch { NoWatchHasNoNote }
{}

/// Whoever holds the intervals of a property has those of the new list once it has taken out what the note says is lost, and put
/// in what it says is gained.
pub fn notes_tell_the_intervals_law()
    ensures { NotesTellTheIntervals }
{}

/// The reply to each line has the notes of what is watched: one for each property whose intervals the line changed.
pub fn notes_are_told_law()
    ensures { NotesAreTold }
{}

/// From the intervals that a watched property has, whoever does as its notes say has the present ones after each line.
pub fn followed_notes_tell_the_intervals_law()
    ensures { FollowedNotesTellTheIntervals }
{}
