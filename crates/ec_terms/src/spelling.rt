//! The bytes that spell names.
#![tactic(auto, unfolding(crate::specs::Spelling::is_lower, crate::specs::Spelling::is_upper, crate::specs::Spelling::is_name_byte, crate::specs::Spelling::begins_with, crate::specs::Spelling::is_name, crate::specs::Spelling::name_run))]

ghost use Rattle.std.specs.Prelude.{◌≡◌, IsTrue, length};
ghost use Rattle.std.specs.List.{list_all};
ghost use Rattle.ec_terms.specs.Spelling.{is_lower, is_name_byte, is_name, name_run, begins_with};

use crate::limits::LONGEST_NAME;

/// Whether a name or a variable may have this byte behind its first: a letter, a digit or `_`.
pub(crate) fn is_name_byte(byte: u8) -> bool
    ensures { result ≡ is_name_byte byte }
{
    matches!(byte, b'a'..=b'z' | b'A'..=b'Z' | b'0'..=b'9' | b'_')
}

/// Whether the bytes begin with a lower case letter.
pub(crate) fn begins_lower(bytes: &[u8]) -> bool
    ensures { result ≡ begins_with is_lower bytes.now }
{
    match bytes.first() {
        Some(first) => first.is_ascii_lowercase(),
        None => false,
    }
}

/// Whether each byte may stand in a name.
fn are_name_bytes(bytes: &[u8]) -> bool
    ensures { result ≡ list_all is_name_byte bytes.now }
{
    bytes.iter().all(|byte| is_name_byte(*byte))
}

/// Whether the bytes are a name.
pub(crate) fn is_name(bytes: &[u8]) -> bool
    ensures { result ≡ is_name bytes.now }
{
    begins_lower(bytes) && are_name_bytes(bytes) && bytes.len() <= LONGEST_NAME
}

/// Whether a run of bytes that may all stand in a name is a name.
pub(crate) fn is_name_run(run: &[u8]) -> bool
    requires { IsTrue (list_all is_name_byte run.now) }
    ensures { result ≡ is_name run.now }
{
    begins_lower(run) && run.len() <= LONGEST_NAME
}

/// How many bytes the longest run of name bytes at the front has.
pub(crate) fn name_run_len(bytes: &[u8]) -> usize
    ensures { result ≡ length (name_run bytes.now) }
{
    bytes.iter().take_while(|byte| is_name_byte(**byte)).count()
}
