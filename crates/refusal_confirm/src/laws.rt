//! Laws of faults. Each function does nothing: what it ensures holds for every refusal.

ghost use Rattle.std.specs.Prelude.{◌≡◌, List};
ghost use Rattle.program_sources.specs.Recurrence.{SourceDef};
ghost use Rattle.refusal_laws.specs.Steps.{StepDef, Holds};
ghost use Rattle.refusal_confirm.specs.Faults.{IsFault};
ghost use Rattle.refusal_confirm.specs.declared.fault.Fault.{Fault};

/// No refusal with a fault holds, and none has two.
pub fn faults_are_exact()
    ensures excluded { (e : Fault) (f : SourceDef) (steps : List StepDef) → IsFault e f steps → Holds f steps → ⊥ }
    ensures one { (e e' : Fault) (f : SourceDef) (steps : List StepDef) → IsFault e f steps → IsFault e' f steps → e ≡ e' }
{}
