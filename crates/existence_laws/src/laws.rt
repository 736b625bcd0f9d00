ghost use Rattle.std.specs.Prelude.{ℕ, ◌<◌, length};
ghost use Rattle.sporadic_model.specs.SetDef.{SetDef};
ghost use Rattle.sporadic_model.specs.Accepted.{IsAccepted};
ghost use Rattle.schedule_model.specs.JobDef.{JobsDef};
ghost use Rattle.schedule_model.specs.LawfulJobs.{AreLawfulJobs};
ghost use Rattle.protocol_names.specs.declared.ProtocolName.{ProtocolName};
ghost use Rattle.named_laws.specs.Named.{HasHomes, rules_of, choice_of};
ghost use Rattle.existence_laws.specs.Existing.{HasSchedule, HasLawfulJob};

/// Take lawful jobs of an accepted set that has the homes that the protocol asks for. For each number of rows, these jobs have a lawful
/// schedule of that many rows, under every protocol. The protocol chooses each of its rows.
pub fn lawful_jobs_have_schedules()
    ensures { (protocol : ProtocolName) (jobs : JobsDef) (n : ℕ) → IsAccepted jobs.set → HasHomes protocol jobs.set
        → AreLawfulJobs jobs → HasSchedule (rules_of protocol) (choice_of protocol) jobs n }
{}

/// Each task of an accepted set has, for each tick, a lawful job that is released at it. That job alone is a lawful list of jobs.
pub fn each_task_has_a_lawful_job()
    ensures { (set : SetDef) (x tick : ℕ) → IsAccepted set → x < length set.tasks → HasLawfulJob set x tick }
{}
