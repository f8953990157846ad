//! The laws of the past, each the contract of a function.
ghost use Rattle.ec_replies.specs.PastLaws.{AcceptedUpdatesAreCounted, AcceptedUpdatesCanBeTakenBack, ThePastIsRemembered, TheWindowIsWidest, WindowsAreWidest, WindowsNeedNoMore};

/// The past keeps as many of the latest updates as there is room for, and an update that it has let go never comes back.
pub fn windows_are_widest_law()
    ensures widest { WindowsAreWidest }
    ensures no_more { WindowsNeedNoMore }
{}

/// Behind each update that is accepted another one can take it back, so a list of the past can be reached from the present one.
pub fn accepted_updates_can_be_taken_back_law()
    ensures { AcceptedUpdatesCanBeTakenBack }
{}

/// The number of accepted updates rises by one with each line that is answered by `ok` and may change the events, and with no other.
pub fn accepted_updates_are_counted_law()
    ensures { AcceptedUpdatesAreCounted }
{}

/// Whoever asks later for the list after so many accepted updates is answered from the list that stood then, as long as it is kept.
pub fn the_past_is_remembered_law()
    ensures { ThePastIsRemembered }
{}

/// The past counts each accepted update, and keeps the latest of them: as many as there is room for, and with one more there would
/// be too many.
pub fn the_window_is_widest_law()
    ensures { TheWindowIsWidest }
{}
