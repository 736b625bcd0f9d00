//! Laws of answers. Each function does nothing: its contract is the law.

ghost use Rattle.std.specs.Prelude.{◌≡◌, Result, IfOk};
ghost use Rattle.program_form.specs.Certificate.{CertificateDef};
ghost use Rattle.sporadic_model.specs.Accepted.{IsAccepted};
ghost use Rattle.program_sources.specs.Recurrence.{SourceDef};
ghost use Rattle.program_sources.specs.Valid.{IsValid};
ghost use Rattle.soundness_laws.specs.Sound.{Sound};
ghost use Rattle.soundness_laws.specs.Analyses.{Analyses};
ghost use Rattle.schedule_answers.specs.Failures.{IsFailure};
ghost use Rattle.dual_check.specs.Answers.{Judges};
ghost use Rattle.schedule_answers.specs.declared.checked.Valid.{Valid};
ghost use Rattle.schedule_answers.specs.declared.checked.Invalid.{Invalid};

use schedule_model::BlockingProtocol;
use soundness_laws::analysed_protocols_are_sound;

/// No certificate with a failure is valid, and none has two failures.
pub fn failures_are_exact()
    ensures invalid { (e : Invalid) (f : SourceDef) (c : CertificateDef) → IsFailure e f c → IsValid f c → ⊥ }
    ensures one { (e e' : Invalid) (f : SourceDef) (c : CertificateDef) → IsFailure e f c → IsFailure e' f c → e ≡ e' }
{}

/// What is judged Ok for a source is sound, under every protocol that the source analyses. The set is accepted and suits the protocol.
pub fn what_passes_is_sound<B: BlockingProtocol>()
    ensures { (b : B) (f : SourceDef) (c : CertificateDef) (r : Result Valid Invalid) → IsAccepted f.set → B.suits b f.set
        → Analyses (B.keeps b) (B.interferes b) f → Judges r f c
        → IfOk r (λ v. Sound (B.keeps b) (B.interferes b) f.set c.bounds v.values.items) }
{
    analysed_protocols_are_sound::<B>();
}
