//! How links change by one mention, each law the contract of a function.
ghost use Rattle.ec_changes.specs.LinkLaws.{LinksAreOfMentions, LinksInAnyOrder, MentionsWithEvent, MentionsWithoutEvent, OneMentionMore};

/// The links of a list of events are those of its mentions, so a loop over mentions can count them.
pub fn links_are_of_mentions_law()
    ensures { LinksAreOfMentions }
{}

/// Mentions in another order are the mentions of the same live properties, with as many links. So the mentions of an event
/// count alike wherever it stands in the list.
pub fn links_in_any_order_law()
    ensures { LinksInAnyOrder }
{}

/// One mention more adds as many links as live properties are exclusive to it, and, if it was not live before, one for
/// each older mention of a property that is exclusive to it. Read from right to left it says what one mention less takes.
pub fn one_mention_more_law()
    ensures { OneMentionMore }
{}

/// Putting an event into its place adds its own mentions to those of the list, and nothing else.
pub fn mentions_with_event_law()
    ensures { MentionsWithEvent }
{}

/// Taking an event of a history out takes its own mentions from those of the list, and nothing else.
pub fn mentions_without_event_law()
    ensures { MentionsWithoutEvent }
{}
