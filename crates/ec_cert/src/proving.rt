//! Proofs and verdicts, by a pass over the events of a file.
ghost use Rattle.std.specs.Prelude.{◌≡◌, ◌≤◌, ◌^◌, IsTrue, IfOk, length};
ghost use Rattle.ec_terms.specs.Term.{ground_of, names_are_names};
ghost use Rattle.ec_axioms.specs.Calculus.{holds_at};
ghost use Rattle.ec_store.specs.Store.{history_of};
ghost use Rattle.ec_cone.specs.Label.{label_text};
ghost use Rattle.ec_cert.specs.Verdicts.{proof_text, verdict_of as verdict_by};

use crate::comparing::verdict_of;
use crate::event_file::EventFile;
use crate::verdict::Verdict;
use ec_axioms::Steps;
use ec_lists::NoMemory;
use ec_moment::Moment;
use ec_pass::find;
use ec_rows::TimeRow;
use ec_terms::GroundRef;
use std::alloc::Global;
use std::sync::ledger::Ledger;

/// The text that proves that a property holds at a time, by the events of a file: its label, or `none`
/// where it does not hold. `Err`: memory ran out.
pub fn prove<T: Moment, X: TimeRow<T>, L: Ledger>(
    alloc: Global,
    file: &EventFile<T, X>,
    p: &GroundRef<'_>,
    at: T,
    steps: &mut Steps<L>,
) -> Result<Vec<u8>, NoMemory>
    requires named { IsTrue (names_are_names (ground_of p.now)) }
    ensures { IfOk result (λ text. text.items ≡ proof_text file.now.rules (history_of T.rank file.now.store.events) T.canon (ground_of p.now) (T.rank at)) }
{
    let finding = find(alloc, &file.rules, &file.store, p, at, steps)?;
    if finding.holds {
        return Ok(finding.label);
    }
    Ok(Vec::from_slice(alloc, "none\n".as_bytes())?)
}

/// What a certificate for a property and a time comes to, by the events of a file. The label is made
/// afresh, and the certificate must be it to the last byte. `Err`: memory ran out.
pub fn verify<T: Moment, X: TimeRow<T>, L: Ledger>(
    alloc: Global,
    file: &EventFile<T, X>,
    p: &GroundRef<'_>,
    at: T,
    certificate: &[u8],
    steps: &mut Steps<L>,
) -> Result<Verdict, NoMemory>
    requires named { IsTrue (names_are_names (ground_of p.now)) }
    requires few { length certificate.now ≤ 2 ^ 26 }
    ensures { IfOk result (λ verdict. verdict ≡ verdict_by certificate.now
        (label_text file.now.rules (history_of T.rank file.now.store.events) T.canon (ground_of p.now) (T.rank at))
        (holds_at file.now.rules (history_of T.rank file.now.store.events) (ground_of p.now) (T.rank at))) }
{
    let finding = find(alloc, &file.rules, &file.store, p, at, steps)?;
    Ok(verdict_of(certificate, finding.label.as_slice(), finding.holds))
}
