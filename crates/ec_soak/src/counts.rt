//! What is counted of the replies of a run.
ghost use Rattle.std.specs.Prelude.{◌≡◌, ◌==◌, position};
ghost use Rattle.std.specs.Str.{bytes_eq};
ghost use Rattle.ec_soak.specs.Tally.{first_word, next_if};

/// The counts of the output of a run: its lines whose first word is `ok`, `yes`, `no` or `refused`, its
/// bytes with all line ends, and its lines `refused memory`. In place of a greater number each is
/// 18446744073709551615.
#[derive(Clone, Copy, Debug, PartialEq, Eq)]
pub struct Counts {
    pub ok: u64,
    pub yes: u64,
    pub no: u64,
    pub refused: u64,
    pub bytes: u64,
    pub memory: u64,
}

/// Where the first space of a line stands.
fn first_space(line: &[u8]) -> Option<usize>
    ensures { result ≡ position (λ byte. byte == 32) line.now }
{
    line.iter().position(|byte| *byte == b' ')
}

/// What stands before the first space of a line.
fn first_word(line: &[u8]) -> &[u8]
    ensures { result.now ≡ first_word line.now }
{
    match first_space(line) {
        Some(at) => &line[..at],
        None => line,
    }
}

/// Adds one to a count if some bytes are those of a text.
fn count_if(bytes: &[u8], text: &[u8], count: &mut u64)
    ensures { count.new ≡ next_if (bytes_eq bytes.now text.now) count.old }
{
    if bytes == text {
        *count = count.saturating_add(1);
    }
}

impl Counts {
    ghost use Rattle.ec_soak.specs.Tally.{with_line};

    /// Counts a line that ended. Its bytes are not counted here.
    pub(crate) fn add_line(&mut self, line: &[u8])
        ensures { self.new ≡ with_line self.old line.now }
    {
        let word = first_word(line);
        count_if(word, b"ok", &mut self.ok);
        count_if(word, b"yes", &mut self.yes);
        count_if(word, b"no", &mut self.no);
        count_if(word, b"refused", &mut self.refused);
        count_if(line, b"refused memory", &mut self.memory);
    }
}
