//! The words that a command can begin with.
ghost use Rattle.std.specs.Prelude.{◌≡◌, bytes_eq};
ghost use Rattle.ec_commands.specs.Commands.{keyword_of};

/// The first word of a command.
#[derive(Drop)]
pub enum Keyword {
    Assert,
    Retract,
    Begin,
    Commit,
    Abort,
    Holds,
    Through,
    Intervals,
    Broken,
    At,
    Clashes,
    Events,
    Why,
    Pairs,
    Related,
    Last,
    Quit,
}

/// Whether the word has this spelling.
pub(crate) fn is(word: &[u8], spelling: &[u8]) -> bool
    ensures { result ≡ bytes_eq spelling.now word.now }
{
    spelling == word
}

/// The keyword that a word spells. `None` where it spells none.
#[tactic(auto, unfolding(crate::specs::Commands::keyword_of, crate::specs::Commands::keywords))]
pub fn read_keyword(word: &[u8]) -> Option<Keyword>
    ensures { result ≡ keyword_of word.now }
{
    let keyword = if is(word, b"assert") {
        Keyword::Assert
    } else if is(word, b"retract") {
        Keyword::Retract
    } else if is(word, b"begin") {
        Keyword::Begin
    } else if is(word, b"commit") {
        Keyword::Commit
    } else if is(word, b"abort") {
        Keyword::Abort
    } else if is(word, b"holds") {
        Keyword::Holds
    } else if is(word, b"through") {
        Keyword::Through
    } else if is(word, b"intervals") {
        Keyword::Intervals
    } else if is(word, b"broken") {
        Keyword::Broken
    } else if is(word, b"at") {
        Keyword::At
    } else if is(word, b"clashes") {
        Keyword::Clashes
    } else if is(word, b"events") {
        Keyword::Events
    } else if is(word, b"why") {
        Keyword::Why
    } else if is(word, b"pairs") {
        Keyword::Pairs
    } else if is(word, b"related") {
        Keyword::Related
    } else if is(word, b"last") {
        Keyword::Last
    } else if is(word, b"quit") {
        Keyword::Quit
    } else {
        return None;
    };
    Some(keyword)
}
