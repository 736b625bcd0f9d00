//! Properties of the programs of every protocol. Each function does nothing: its contract is a law, for every name and every set.

ghost use Rattle.std.specs.Prelude.{◌≡◌, ℕ, List, IsUtf8};
ghost use Rattle.program_form.specs.Certificate.{CertificateDef};
ghost use Rattle.program_sources.specs.Fitting.{AreFitting, ComesUpAbove};
ghost use Rattle.program_sources.specs.Valid.{IsValid};
ghost use Rattle.sporadic_model.specs.SetDef.{SetDef};
ghost use Rattle.sporadic_model.specs.Accepted.{IsAccepted};
ghost use Rattle.soundness_laws.specs.Analyses.{AreValues};
ghost use Rattle.response_fixpoint.specs.Rounds.{NotShown, EndsIn};
ghost use Rattle.response_fixpoint.specs.Runs.{HasNoColumns, RequestsNothing};
ghost use Rattle.refusal_laws.specs.Steps.{StepDef, Holds};
ghost use Rattle.refusal_cert.specs.Refuting.{refuting};
ghost use Rattle.refusal_cert.specs.Steps.{refusal_of};
ghost use Rattle.schedule_model.specs.JobDef.{JobsDef};
ghost use Rattle.schedule_model.specs.RowDef.{RunDef, Trace, jobs_of};
ghost use Rattle.schedule_model.specs.LawfulJobs.{AreLawfulJobs};
ghost use Rattle.schedule_model.specs.Keeping.{KeepsBefore};
ghost use Rattle.sim_engine.specs.Simulated.{IsSimulated};
ghost use Rattle.named_laws.specs.Audited.{AreProvedFigures};
ghost use Rattle.clock_laws.specs.Whole.{is_whole};
ghost use Rattle.named_laws.specs.Named.{source_of, choice_of, rules_of, IsCloserThan, SoundUnder, SoundOnClocksUnder};
ghost use Rattle.protocol_names.specs.Names.{word_of};
ghost use Rattle.protocol_names.specs.declared.ProtocolName.{ProtocolName};

/// The bounds of a valid certificate of an accepted set, and the values of its duals, hold in every lawful schedule.
pub fn programs_are_sound()
    ensures { (protocol : ProtocolName) (set : SetDef) (c : CertificateDef) (values : List ℕ) → IsAccepted set
        → IsValid (source_of protocol set) c → AreValues (source_of protocol set) c values → SoundUnder protocol set c.bounds values }
{}

/// On the machine's clock they hold too, however many cycles a tick has. This is so in every lawful schedule whose rows are cycles, if
/// each job leaves all but one cycle of a tick of its cost. A job of a task with a whole value need leave none. A job is blocked at no
/// more cycles than the value has, and a part of a tick.
pub fn programs_are_sound_on_clocks()
    ensures { (protocol : ProtocolName) (set : SetDef) (c : CertificateDef) (values : List ℕ) → IsAccepted set
        → IsValid (source_of protocol set) c → AreValues (source_of protocol set) c values
        → SoundOnClocksUnder protocol (is_whole (source_of protocol set) c) set c.bounds values }
{}

/// The recurrence is monotone. If a task has a response time at some bounds, it has one at greater bounds, which is no less. And a task
/// set that requests nothing has programs without columns.
pub fn programs_rise()
    ensures above { (protocol : ProtocolName) (set : SetDef) → ComesUpAbove (source_of protocol set) }
    ensures none { (protocol : ProtocolName) (set : SetDef) → RequestsNothing set → HasNoColumns (source_of protocol set) }
{}

/// Bounds that fit under a protocol fit under each closer analysis of it.
pub fn closer_analyses_raise_no_bound()
    ensures { (closer plain : ProtocolName) (set : SetDef) (s : List ℕ) → IsCloserThan closer plain
        → AreFitting (source_of plain set) s → AreFitting (source_of closer set) s }
{}

/// The word of every protocol is UTF-8.
pub fn words_are_texts()
    ensures { (protocol : ProtocolName) → IsUtf8 (word_of protocol) }
{}

/// A protocol chooses one schedule for jobs and a number of ticks.
pub fn schedules_are_unique()
    ensures { (protocol : ProtocolName) (jobs : JobsDef) (n : ℕ) (a b : List RunDef) → IsSimulated (choice_of protocol) jobs n a
        → IsSimulated (choice_of protocol) jobs n b → a ≡ b }
{}

/// Let the jobs be lawful, the rows keep the rules and the certificate be valid. Then each task's response is within its bound and its
/// blocking within its value. Its classes add up to all the ticks at which its jobs are blocked.
pub fn figures_are_proved()
    ensures { (protocol : ProtocolName) (c : CertificateDef) (w : Trace) (n : ℕ) → IsAccepted w.set → IsValid (source_of protocol w.set) c
        → AreLawfulJobs (jobs_of w) → KeepsBefore (rules_of protocol) w n → AreProvedFigures protocol c w n }
{}

/// If a refusal of a set holds, no bounds fit, so no certificate is valid.
pub fn refusals_are_right()
    ensures none_fits { (protocol : ProtocolName) (set : SetDef) (steps : List StepDef) (s : List ℕ)
        → Holds (source_of protocol set) steps → AreFitting (source_of protocol set) s → ⊥ }
    ensures none_valid { (protocol : ProtocolName) (set : SetDef) (steps : List StepDef) (c : CertificateDef)
        → Holds (source_of protocol set) steps → IsValid (source_of protocol set) c → ⊥ }
{}

/// The refusal that the rounds give for an accepted set holds.
pub fn rounds_give_refusals_that_hold()
    ensures { (protocol : ProtocolName) (set : SetDef) (allowance i value : ℕ) → IsAccepted set
        → (ends : EndsIn (refuting (source_of protocol set)) allowance (NotShown i value))
        → Holds (source_of protocol set) (refusal_of (refuting (source_of protocol set)) allowance (NotShown i value) ends) }
{}
