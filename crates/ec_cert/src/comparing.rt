//! A certificate beside its label.
ghost use Rattle.std.specs.Prelude.{◌≡◌, ◌≤◌, ◌^◌, ◌==◌, if◌then◌else◌, length, min};
ghost use Rattle.ec_commands.specs.Lines.{line_feed};
ghost use Rattle.ec_cert.specs.Verdicts.{bad_line, verdict_of};

use crate::verdict::Verdict;

/// The length of the shorter of two texts.
fn shared_len(a: &[u8], b: &[u8]) -> usize
    ensures { result ≡ min (length a.now) (length b.now) }
{
    if a.len() < b.len() { a.len() } else { b.len() }
}

/// How many lines a byte ends.
fn ends_line(byte: u8) -> u32
    ensures value { result ≡ (if byte == line_feed then 1 else 0) }
    ensures small { result ≤ 1 }
{
    if byte == b'\n' { 1 } else { 0 }
}

/// The line, from 1, at which a certificate leaves its label.
fn bad_line(certificate: &[u8], label: &[u8]) -> u32
    requires few { length certificate.now ≤ 2 ^ 26 }
    ensures { result ≡ bad_line certificate.now label.now }
{
    let shared = shared_len(certificate, label);
    let mut line = 1;
    for at in 0..shared {
        let byte = certificate[at];
        let wanted = label[at];
        if byte != wanted {
            return line;
        }
        line += ends_line(byte);
    }
    line
}

/// What a certificate comes to, by its label and by whether the property holds.
#[tactic(auto, unfolding(crate::specs::Verdicts::verdict_of))]
pub fn verdict_of(certificate: &[u8], label: &[u8], holds: bool) -> Verdict
    requires few { length certificate.now ≤ 2 ^ 26 }
    ensures { result ≡ verdict_of certificate.now label.now holds }
{
    if certificate != label {
        return Verdict::Bad(bad_line(certificate, label));
    }
    if holds { Verdict::Yes } else { Verdict::No }
}
