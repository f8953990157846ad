//! Reading names, numbers and ground terms at the front of a text. Each is read as the longest run of
//! its bytes, and a run that spells nothing is never cut.
#![tactic(auto, using(crate::proofs::Runs::runs))]

ghost use Rattle.std.specs.Prelude.{◌≡◌, ◌≤◌, ◌==◌, IsTrue, None, Some, IfSome, MatchOption, length, map};
ghost use Rattle.std.specs.List.{list_all};
ghost use Rattle.ec_terms.specs.Spelling.{begins_with, is_name};
ghost use Rattle.ec_terms.specs.Front.{name_front, digit_run, number_run, number_front, arg_front, args_front};
ghost use Rattle.ec_terms.specs.Term.{arg_of, ground_of, is_argument, names_are_names, term_front};

use crate::ground::{ArgRef, ArgRefs, GroundRef};
use crate::limits::MOST_ARGS;
use crate::spelling::{begins_lower, is_name_run, name_run_len};
use ec_moment::read_number;

/// Reads the name at the front, and says how many bytes it has. `None` where the longest run of name
/// bytes at the front is no name: where it is empty, is longer than `LONGEST_NAME` or begins with no
/// lower case letter.
pub fn read_name(bytes: &[u8]) -> Option<(&[u8], usize)>
    ensures exact { MatchOption result (name_front bytes.now ≡ None) (λ r. name_front bytes.now ≡ Some (r.0.now, r.1)) }
    ensures name { IfSome result (λ r. IsTrue (is_name r.0.now)) }
    ensures within { IfSome result (λ r. r.1 ≤ length bytes.now) }
{
    let count = name_run_len(bytes);
    let name = &bytes[..count];
    if is_name_run(name) {
        Some((name, count))
    } else {
        None
    }
}

/// How many bytes the longest run of digits at the front has.
#[tactic(auto, unfolding(crate::specs::Front::digit_run), using(crate::proofs::Runs::runs))]
fn digit_run_len(bytes: &[u8]) -> usize
    ensures run { result ≡ length (digit_run bytes.now) }
    ensures within { result ≤ length bytes.now }
{
    bytes
        .iter()
        .take_while(|byte| byte.is_ascii_digit())
        .count()
}

/// How many bytes the longest run of an optional `-` and digits at the front has.
fn number_run_len(bytes: &[u8]) -> usize
    ensures run { result ≡ length (number_run bytes.now) }
    ensures within { result ≤ length bytes.now }
{
    match bytes.first() {
        Some(b'-') => 1 + digit_run_len(&bytes[1..]),
        _ => digit_run_len(bytes),
    }
}

/// Reads the number at the front, and says how many bytes it has. `None` where the longest run of an
/// optional `-` and digits at the front is no number: where it has no digit or more than a number has,
/// or its value does not fit.
pub fn read_int(bytes: &[u8]) -> Option<(i64, usize)>
    ensures exact { result ≡ number_front bytes.now }
    ensures within { IfSome result (λ r. r.1 ≤ length bytes.now) }
{
    let count = number_run_len(bytes);
    let number = read_number(&bytes[..count])?;
    Some((number, count))
}

/// Reads the argument at the front, and says how many bytes it has.
fn read_arg(bytes: &[u8]) -> Option<(ArgRef<'_>, usize)>
    ensures exact { MatchOption result (arg_front bytes.now ≡ None) (λ r. arg_front bytes.now ≡ Some (arg_of r.0, r.1)) }
    ensures name { IfSome result (λ r. IsTrue (is_argument (arg_of r.0))) }
    ensures within { IfSome result (λ r. r.1 ≤ length bytes.now) }
{
    if begins_lower(bytes) {
        let (name, count) = read_name(bytes)?;
        Some((ArgRef::Word(name), count))
    } else {
        let (number, count) = read_int(bytes)?;
        Some((ArgRef::Int(number), count))
    }
}

/// Reads the arguments that stand from behind a `(` up to its `)`, and says how many bytes they and
/// the `)` have.
fn read_args(bytes: &[u8]) -> Option<(ArgRefs<'_>, usize)>
    ensures exact { MatchOption result (args_front bytes.now ≡ None) (λ r. args_front bytes.now ≡ Some (map arg_of r.0, r.1)) }
    ensures names { IfSome result (λ r. IsTrue (list_all is_argument (map arg_of r.0))) }
    ensures within { IfSome result (λ r. r.1 ≤ length bytes.now) }
{
    let mut args = ArgRefs::new();
    let mut at = 0;
    while args.len() < MOST_ARGS {
        let (arg, count) = read_arg(&bytes[at..])?;
        args.push(arg);
        at += count;
        let mark = *bytes.get(at)?;
        if mark == b')' {
            return Some((args, at + 1));
        }
        if mark != b',' {
            return None;
        }
        at += 1;
    }
    None
}

/// Whether the bytes begin with a `(`.
#[tactic(auto, unfolding(crate::specs::Spelling::begins_with))]
fn begins_open(bytes: &[u8]) -> bool
    ensures open { result ≡ begins_with (λ b. b == 40) bytes.now }
    ensures some { IsTrue result → 1 ≤ length bytes.now }
{
    match bytes.first() {
        Some(first) => *first == b'(',
        None => false,
    }
}

/// Reads the ground term at the front, and says how many bytes it has. Its name is the longest run of
/// name bytes; where a `(` follows, the whole form is needed: 1 to `MOST_ARGS` arguments with `,`
/// between them and a `)`. `None` where no term stands there.
pub fn read_ground(bytes: &[u8]) -> Option<(GroundRef<'_>, usize)>
    ensures exact { MatchOption result (term_front bytes.now ≡ None) (λ r. term_front bytes.now ≡ Some (ground_of r.0, r.1)) }
    ensures names { IfSome result (λ r. IsTrue (names_are_names (ground_of r.0))) }
    ensures within { IfSome result (λ r. r.1 ≤ length bytes.now) }
{
    let (name, count) = read_name(bytes)?;
    let rest = &bytes[count..];
    if begins_open(rest) {
        let (args, args_count) = read_args(&rest[1..])?;
        Some((GroundRef { name, args }, count + 1 + args_count))
    } else {
        let args = ArgRefs::new();
        Some((GroundRef { name, args }, count))
    }
}
