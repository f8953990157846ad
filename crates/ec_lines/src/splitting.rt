//! Cutting a text that is held whole into its lines.
ghost use Rattle.std.specs.Prelude.{◌≡◌, ◌<◌, ℕ, List, [], ◌∷◌, IfSome, IfNone, length};
ghost use Rattle.ec_commands.specs.Lines.{lines_of, without_return};
ghost use Rattle.ec_lines.specs.ShownLine.{ShowsLine};

use crate::feed::ends_with_return;
use crate::line::Line;
use ec_commands::LONGEST_LINE;
use memchr::memchr;

/// The bytes without one carriage return at their end.
fn without_return(bytes: &[u8]) -> &[u8]
    ensures { result.now ≡ without_return bytes.now }
{
    if ends_with_return(bytes) {
        &bytes[..bytes.len() - 1]
    } else {
        bytes
    }
}

/// The line that some bytes are.
#[tactic(auto, unfolding(ec_commands::specs::Lines::is_long))]
fn line_of(bytes: &[u8]) -> Line<'_>
    ensures { ShowsLine result bytes.now }
{
    if bytes.len() > LONGEST_LINE {
        Line::Long
    } else {
        Line::Text(bytes)
    }
}

/// The first line of a text, and the text behind it. `None` exactly where the text is empty. It
/// copies nothing.
pub fn split_line(bytes: &[u8]) -> Option<(Line<'_>, &[u8])>
    ensures none { IfNone result (bytes.now ≡ []) }
    ensures line { IfSome result (λ cut. (line : List ℕ) × ShowsLine cut.0 line × (lines_of bytes.now ≡ line ∷ lines_of cut.1.now)) }
    ensures shorter { IfSome result (λ cut. length cut.1.now < length bytes.now) }
{
    if bytes.is_empty() {
        return None;
    }
    match memchr(b'\n', bytes) {
        Some(at) => Some((line_of(without_return(&bytes[..at])), &bytes[at + 1..])),
        None => Some((line_of(bytes), &[])),
    }
}
