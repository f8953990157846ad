ghost use Rattle.std.specs.Prelude.{◌≡◌, ℕ, ◌↔◌, List, IsTrue, IsSome, IfSome, Some, length, ◌≤◌, nat_eq, refl};
ghost use Rattle.std.specs.Ordering.{nat_cmp};
ghost use Rattle.std.specs.Cmp.{partial_equiv_from_equiv};
ghost use Rattle.std.specs.Cmp.Lexicographic.{slice_cmp, pointwise, nat_list_eq_equiv, nat_list_cmp_total, texts_po, texts_ties};
ghost use Rattle.std.specs.Hash as fed;
ghost use Rattle.std.specs.Cmp.Rules.{hashing};
ghost use Rattle.std.proofs.Common.{rules};

use crate::limits::LONGEST_NAME;
use crate::spelling::is_name;
use arrayvec::ArrayString;
use ec_lists::Copied;
use std::cmp::Ordering;
use std::hash::{Hash, Hasher};
use std::marker::Model;
use std::{fmt, str};

/// A name: an identity of an event, or the name of an event, a property or an argument.
/// A lower case letter, then letters, digits and underscores; 1 to `LONGEST_NAME` bytes, kept in
/// place.
#[derive(Drop)]
pub struct Name {
    text: ArrayString<LONGEST_NAME>,
}

impl Model for Name {
    ghost use Rattle.std.specs.Prelude.{ℕ, List, IsTrue};
    ghost use Rattle.ec_terms.specs.Spelling.{is_name};

    ghost Value = { List ℕ };

    ghost view = { λ n. n.text.bytes };

    ghost invariant = { λ n. IsTrue (is_name n.text.bytes) };
}

impl Name {
    ghost use Rattle.ec_terms.specs.Spelling.{is_name};

    /// The name that the bytes are. None is for bytes that are no name.
    #[tactic(auto, using(crate::proofs::Names::name_bytes))]
    pub fn from_bytes(bytes: &[u8]) -> Option<Name>
        ensures spelling { IsSome result ↔ IsTrue (is_name bytes.now) }
        ensures same { IfSome result (λ name. name ≡ bytes.now) }
    {
        if !is_name(bytes) {
            return None;
        }
        let text = str::from_utf8(bytes).ok()?;
        let text = ArrayString::from(text).ok()?;
        Some(Name { text })
    }

    /// The name that these bytes are, which spell one.
    #[tactic(auto, using(crate::proofs::Names::name_bytes))]
    pub(crate) fn spelt(bytes: &[u8]) -> Name
        requires { IsTrue (is_name bytes.now) }
        ensures { result ≡ bytes.now }
    {
        match Name::from_bytes(bytes) {
            Some(name) => name,
            None => unreachable!(),
        }
    }

    /// The bytes of the name, all of them ASCII.
    pub fn as_bytes(&self) -> &[u8]
        ensures bytes { result.now ≡ self.now }
        ensures name { IsTrue (is_name self.now) }
        ensures short { length result.now ≤ LONGEST_NAME }
    {
        self.text.as_str().as_bytes()
    }

    /// The same name again. It takes no memory.
    pub fn copied(&self) -> Name
        ensures same { result ≡ self.now }
    {
        let mut text = ArrayString::new();
        text.push_str(self.text.as_str());
        Name { text }
    }
}

impl Copied for Name {
    fn copied(&self) -> Name {
        self.copied()
    }
}

/// Names are equal where their bytes are.
impl PartialEq for Name {
    ghost eq = { pointwise nat_eq };

    ghost laws = { partial_equiv_from_equiv nat_list_eq_equiv };

    fn eq(&self, other: &Name) -> bool {
        self.as_bytes() == other.as_bytes()
    }
}

impl Eq for Name {
    ghost laws = { nat_list_eq_equiv };
}

/// Names go by their bytes, and a prefix of a name comes before it.
impl PartialOrd for Name {
    ghost partial_cmp = { λ x y. Some (slice_cmp nat_cmp x y) };

    ghost laws = { texts_po };

    fn partial_cmp(&self, other: &Name) -> Option<Ordering> {
        Some(self.cmp(other))
    }
}

impl Ord for Name {
    ghost cmp = { slice_cmp nat_cmp };

    ghost total = { nat_list_cmp_total };

    ghost matches_partial_cmp = { λ x y. refl };

    ghost matches_eq = { texts_ties };

    fn cmp(&self, other: &Name) -> Ordering {
        self.as_bytes().cmp(&other.as_bytes())
    }
}

impl Hash for Name {
    ghost hash_input = { fed.slice fed.u8 };

    ghost respects_eq = { Prim.search (hashing, rules) };

    fn hash<H: Hasher>(&self, state: &mut H) {
        self.as_bytes().hash(state);
    }
}

impl fmt::Debug for Name {
    fn fmt<W: fmt::Write>(&self, f: &mut fmt::Formatter<W>) -> fmt::Result {
        fmt::Debug::fmt(&self.text.as_str(), f)
    }
}

impl fmt::Display for Name {
    ghost output = { λ name. Some name };

    fn fmt<W: fmt::Write>(&self, f: &mut fmt::Formatter<W>) -> fmt::Result {
        fmt::Display::fmt(&self.text.as_str(), f)
    }
}
