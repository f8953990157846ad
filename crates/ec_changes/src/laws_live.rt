//! What marks owe to the properties that are live, each law the contract of a function: clashes by the initiations of
//! neighbours, what is known of a property that is not live, and how large a count can be.
ghost use Rattle.ec_changes.specs.LiveLaws.{ClashesAreInitiations, FixedInitialsAreListed, LiveIsListed, MarksAreSmall, NotLiveIsGathered, NotLiveIsUnknown, WhatDiffersIsLive};

/// The clashes of a property at an instant are the initiations there of the properties that are exclusive to it, summed
/// over any list that has each live property and none twice. So clashes need no count of their own: one initiation that
/// turns is one clash at each neighbour.
pub fn clashes_are_initiations_law()
    ensures { ClashesAreInitiations }
{}

/// A property that is not live, which no event mentions and which is not initial, is never current, has no interval and
/// no broken begin, and nothing initiates or terminates it.
pub fn not_live_is_unknown_law()
    ensures { NotLiveIsUnknown }
{}

/// So the marks of a property that is not live yet are gathered from its neighbours: they count clashes alone.
pub fn not_live_is_gathered_law()
    ensures { NotLiveIsGathered }
{}

/// A property whose currency differs between two lists, at any time, is live in one of them.
pub fn what_differs_is_live_law()
    ensures { WhatDiffersIsLive }
{}

/// Each count of a mark is at most the number of mentions of its list, so a limit on mentions is one on counts.
pub fn marks_are_small_law()
    ensures { MarksAreSmall }
{}

/// In a theory whose initial properties have no variables, the properties that are initial are those that it lists.
pub fn fixed_initials_are_listed_law()
    ensures { FixedInitialsAreListed }
{}

/// In such a theory a property is live exactly when it stands among the live properties in term order, and none stands
/// there twice.
pub fn live_is_listed_law()
    ensures { LiveIsListed }
{}
