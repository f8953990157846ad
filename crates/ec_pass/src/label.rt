//! A label that is written line by line.
ghost use Rattle.std.specs.Prelude.{◌≡◌, ◌+◌, ◌++◌, IsTrue, IfOk, OnOk};
ghost use Rattle.ec_terms.specs.Term.{ground_of, names_are_names};
ghost use Rattle.ec_cone.specs.Label.{end_line, head_line};
ghost use Rattle.ec_pass.specs.Written.{line_of};

use ec_lists::{NoMemory, add_counts};
use ec_moment::Moment;
use ec_terms::{GroundRef, text};
use itoa::Buffer;
use std::alloc::Global;

/// The first lines of a label, and how many of them are lines of events.
#[derive(Drop)]
pub(crate) struct Label {
    pub(crate) text: Vec<u8>,
    pub(crate) lines: usize,
}

impl Label {
    /// The first line.
    pub(crate) fn begin<T: Moment>(
        alloc: Global,
        p: &GroundRef<'_>,
        at: T,
    ) -> Result<Label, NoMemory>
        requires named { IsTrue (names_are_names (ground_of p.now)) }
        ensures text { IfOk result (λ label. label.text.items ≡ head_line T.canon (ground_of p.now) (T.rank at)) }
        ensures lines { IfOk result (λ label. label.lines ≡ 0) }
    {
        let mut label = Vec::from_slice(alloc, "certificate ".as_bytes())?;
        label.extend_from_slice(text(p).as_bytes())?;
        label.push(b' ')?;
        label.extend_from_slice(at.text().as_bytes())?;
        label.push(b'\n')?;
        Ok(Label {
            text: label,
            lines: 0,
        })
    }

    /// Adds the line of an event: its identity and its bits.
    pub(crate) fn add_line(&mut self, id: &[u8], bits: &[u8]) -> Result<(), NoMemory>
        ensures text { OnOk result (self.new.text.items ≡ self.old.text.items ++ line_of id.now bits.now) }
        ensures lines { OnOk result (self.new.lines ≡ self.old.lines + 1) }
    {
        self.text.extend_from_slice(id)?;
        self.text.push(b' ')?;
        self.text.extend_from_slice(bits)?;
        self.text.push(b'\n')?;
        self.lines = add_counts(self.lines, 1)?;
        Ok(())
    }

    /// Adds the last line.
    pub(crate) fn end(self) -> Result<Vec<u8>, NoMemory>
        ensures { IfOk result (λ text. text.items ≡ self.text.items ++ end_line self.lines) }
    {
        let mut label = self.text;
        label.extend_from_slice("end ".as_bytes())?;
        label.extend_from_slice(Buffer::new().format(self.lines).as_bytes())?;
        label.push(b'\n')?;
        Ok(label)
    }
}
