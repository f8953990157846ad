//! What a certificate is of.
ghost use Rattle.std.specs.Prelude.{◌≡◌};
ghost use Rattle.ec_files.specs.Claims.{keeps_all_limits};
ghost use Rattle.ec_files.specs.ShownShape.{plain_claim};

use ec_terms::GroundRef;

/// That a property holds at a time, by a theory and an event file; and which certificate of it is to be verified.
#[derive(Drop)]
pub struct Claim<'a> {
    /// The name of the theory's file.
    pub theory: &'a str,
    /// The name of the event file.
    pub lines: &'a str,
    /// The name of the certificate's file. With `None` a certificate is to be written.
    pub certificate: Option<&'a str>,
    pub prop: GroundRef<'a>,
    /// The word that spells the time. Only the theory tells which times there are.
    pub at: &'a str,
}

impl Claim<'_> {
    /// Whether the event file must keep all limits: where a certificate is to be written.
    pub(crate) fn keeps_all_limits(&self) -> bool
        ensures { result ≡ keeps_all_limits (plain_claim self.now).certificate }
    {
        match self.certificate {
            None => true,
            Some(_) => false,
        }
    }
}
