//! What the words behind the program's name ask for.
ghost use Rattle.std.specs.Prelude.{◌≡◌, ◌<◌, ◌≤◌, ◌^◌, ◌&&◌, nat_le, length, option_map, map, string_bytes, None, Some, IfNone, IfSome, IsTrue};
ghost use Rattle.ec_terms.specs.Term.{term_value};
ghost use Rattle.std.specs.Char.{is_ascii_digit};
ghost use Rattle.std.specs.List.{list_all};
ghost use Rattle.std.specs.Str.Parse.{digits_value};
ghost use Rattle.ec_files.specs.Words.{claim_by, line_count, number_within, seed_value, shape_of, shape_by, shape_by_two, shape_by_four, shape_by_five, soak_by};
ghost use Rattle.ec_files.specs.ShownShape.{IsNamed, plain_shape};

use crate::claim::Claim;
use ec_lines::read_term;
use std::string::String;

/// The line that is written if the words are none of its forms, or name a time that is none.
pub(crate) const USAGE: &[u8] =
    b"usage: ec check THEORY / serve THEORY / replay THEORY LINES / soak N SEED \
/ prove THEORY LINES P T / verify THEORY LINES CERT P T\n";

/// What the words ask for.
#[derive(Drop)]
pub enum Shape<'a> {
    /// Check the theory in the file of that name.
    Check(&'a str),
    /// Serve the lines of the input with the theory in the file of that name.
    Serve(&'a str),
    /// Serve the lines of one file with the theory in another.
    Replay { theory: &'a str, lines: &'a str },
    /// Serve so many generated lines, drawn from the seed.
    Soak { lines: u32, seed: u64 },
    /// Write a certificate of a claim, or verify one.
    Certify(Claim<'a>),
}

/// Whether a word has no other bytes than decimal digits.
fn has_digits_alone(word: &str) -> bool
    ensures { result ≡ list_all is_ascii_digit word.now }
{
    word.as_bytes().iter().all(|byte| byte.is_ascii_digit())
}

/// Whether a word is one to so many decimal digits.
fn is_digits(word: &str, most: usize) -> bool
    ensures { result ≡ (nat_le 1 (length word.now) && (nat_le (length word.now) most && list_all is_ascii_digit word.now)) }
{
    let length = word.len();
    0 < length && length <= most && has_digits_alone(word)
}

/// The value of decimal digits. `None` if it is 2^64 or more.
fn value_of_digits(digits: &str) -> Option<u64>
    requires some { 0 < length digits.now }
    requires digits { IsTrue (list_all is_ascii_digit digits.now) }
    ensures value { IfSome result (λ value. value ≡ digits_value 10 digits.now) }
    ensures none { IfNone result (2 ^ 64 ≤ digits_value 10 digits.now) }
{
    match digits.parse::<u64>() {
        Ok(value) => Some(value),
        Err(_) => None,
    }
}

/// Whether a value is from `least` to `greatest`.
fn is_within(value: u64, least: u64, greatest: u64) -> bool
    ensures { result ≡ (nat_le least value && nat_le value greatest) }
{
    least <= value && value <= greatest
}

/// The value of a word of one to so many decimal digits, if it is from `least` to `greatest`. Leading zeros are allowed.
#[tactic(auto, unfolding(crate::specs::Words::number_within))]
fn number_within(word: &str, digits: usize, least: u64, greatest: u64) -> Option<u64>
    ensures { result ≡ number_within digits least greatest word.now }
{
    if !is_digits(word, digits) {
        return None;
    }
    let value = value_of_digits(word)?;
    if is_within(value, least, greatest) {
        Some(value)
    } else {
        None
    }
}

/// How many lines are to be generated.
#[tactic(auto, unfolding(crate::specs::Words::line_count, crate::specs::Words::number_within))]
fn line_count(word: &str) -> Option<u32>
    ensures { result ≡ line_count word.now }
{
    let count = number_within(word, 6, 1, 100_000)?;
    Some(count as u32)
}

/// The seed of the generated lines.
#[tactic(auto, unfolding(crate::specs::Words::seed_value))]
fn seed_value(word: &str) -> Option<u64>
    ensures { result ≡ seed_value word.now }
{
    number_within(word, 20, 0, u64::MAX)
}

/// The shape of words that ask for generated lines.
fn soak_shape<'a>(lines: &str, seed: &str) -> Option<Shape<'a>>
    ensures shape { option_map plain_shape result ≡ soak_by (line_count lines.now) (seed_value seed.now) }
    ensures named { IfSome result (λ shape. IsNamed (plain_shape shape)) }
{
    let lines = line_count(lines)?;
    let seed = seed_value(seed)?;
    Some(Shape::Soak { lines, seed })
}

/// The shape of two words.
#[tactic(auto, unfolding(crate::specs::Words::shape_by))]
fn shape_by<'a>(command: &str, theory: &'a str) -> Option<Shape<'a>>
    ensures shape { option_map plain_shape result ≡ shape_by command.now theory.now }
    ensures named { IfSome result (λ shape. IsNamed (plain_shape shape)) }
{
    if command == "check" {
        Some(Shape::Check(theory))
    } else if command == "serve" {
        Some(Shape::Serve(theory))
    } else {
        None
    }
}

/// The shape of three words.
#[tactic(auto, unfolding(crate::specs::Words::shape_by_two))]
fn shape_by_two<'a>(command: &str, first: &'a str, second: &'a str) -> Option<Shape<'a>>
    ensures shape { option_map plain_shape result ≡ shape_by_two command.now first.now second.now }
    ensures named { IfSome result (λ shape. IsNamed (plain_shape shape)) }
{
    if command == "replay" {
        Some(Shape::Replay {
            theory: first,
            lines: second,
        })
    } else if command == "soak" {
        soak_shape(first, second)
    } else {
        None
    }
}

/// The shape of words that name a claim.
fn claim_shape<'a>(
    theory: &'a str,
    lines: &'a str,
    certificate: Option<&'a str>,
    prop: &'a str,
    at: &'a str,
) -> Option<Shape<'a>>
    ensures shape { option_map plain_shape result ≡ claim_by theory.now lines.now (option_map (λ name. name.now) certificate.entry) at.now (term_value prop.now) }
    ensures named { IfSome result (λ shape. IsNamed (plain_shape shape)) }
{
    let prop = read_term(prop.as_bytes())?;
    Some(Shape::Certify(Claim {
        theory,
        lines,
        certificate,
        prop,
        at,
    }))
}

/// The shape of five words.
#[tactic(auto, unfolding(crate::specs::Words::shape_by_four))]
fn shape_by_four<'a>(
    command: &str,
    theory: &'a str,
    lines: &'a str,
    prop: &'a str,
    at: &'a str,
) -> Option<Shape<'a>>
    ensures shape { option_map plain_shape result ≡ shape_by_four command.now theory.now lines.now prop.now at.now }
    ensures named { IfSome result (λ shape. IsNamed (plain_shape shape)) }
{
    if command == "prove" {
        claim_shape(theory, lines, None, prop, at)
    } else {
        None
    }
}

/// The shape of six words.
#[tactic(auto, unfolding(crate::specs::Words::shape_by_five))]
fn shape_by_five<'a>(
    command: &str,
    theory: &'a str,
    lines: &'a str,
    certificate: &'a str,
    prop: &'a str,
    at: &'a str,
) -> Option<Shape<'a>>
    ensures shape { option_map plain_shape result ≡ shape_by_five command.now theory.now lines.now certificate.now prop.now at.now }
    ensures named { IfSome result (λ shape. IsNamed (plain_shape shape)) }
{
    if command == "verify" {
        claim_shape(theory, lines, Some(certificate), prop, at)
    } else {
        None
    }
}

/// The shape of the words. `None`: they are none of the forms that the usage line shows.
#[tactic(auto, unfolding(crate::specs::Words::shape_of))]
pub fn shape_of(words: &[String]) -> Option<Shape<'_>>
    ensures shape { option_map plain_shape result ≡ shape_of (map string_bytes words.now) }
    ensures named { IfSome result (λ shape. IsNamed (plain_shape shape)) }
{
    match words {
        [command, theory] => shape_by(command.as_str(), theory.as_str()),
        [command, first, second] => {
            shape_by_two(command.as_str(), first.as_str(), second.as_str())
        }
        [command, theory, lines, prop, at] => shape_by_four(
            command.as_str(),
            theory.as_str(),
            lines.as_str(),
            prop.as_str(),
            at.as_str(),
        ),
        [command, theory, lines, certificate, prop, at] => shape_by_five(
            command.as_str(),
            theory.as_str(),
            lines.as_str(),
            certificate.as_str(),
            prop.as_str(),
            at.as_str(),
        ),
        _ => None,
    }
}
