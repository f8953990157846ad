//! The law of written certificates.
ghost use Rattle.ec_cert.specs.Laws.{WrittenComesToYes, YesHolds};

/// Each proof that is written where a property holds is verified, and nothing is verified where it
/// does not hold.
pub fn written_certificates_verify_law()
    ensures written { WrittenComesToYes }
    ensures yes { YesHolds }
{}
