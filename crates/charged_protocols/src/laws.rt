//! What follows only from the laws of charged protocols. Each function is a law: it does nothing.

ghost use Rattle.program_form.specs.Certificate.{CertificateDef};
ghost use Rattle.std.specs.Prelude.{slice_index};
ghost use Rattle.program_sources.specs.Recurrence.{SourceDef, source_at};
ghost use Rattle.program_sources.specs.Valid.{IsValid};
ghost use Rattle.sporadic_model.specs.SetDef.{SetDef};
ghost use Rattle.sporadic_model.specs.Accepted.{IsAccepted};
ghost use Rattle.charge_laws.specs.Windows.{AreBounds};
ghost use Rattle.soundness_laws.specs.Analyses.{Analyses};

use crate::protocol::ChargedProtocol;

/// The programs of a charged protocol analyse it, on every accepted set that suits it. So the bounds and the values of each certificate
/// that is valid for them are sound.
pub fn charged_protocols_are_analysed<P: ChargedProtocol>()
    ensures { (p : P) (set : SetDef) → IsAccepted set → P.suits p set
        → Analyses (P.keeps p) (P.interferes p) (source_at (P.source p) set) }
{}

/// The bounds of a valid certificate are from 1 to the latest bounds.
pub fn valid_certificates_bound_each_task()
    ensures { (f : SourceDef) (c : CertificateDef) → IsAccepted f.set → IsValid f c → AreBounds f.set (slice_index c.bounds) }
{}
