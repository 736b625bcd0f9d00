ghost use Rattle.std.specs.Prelude.{◌≡◌, ◌-◌, ◌^◌, ℕ, List, Some, option_map, IfSome};
ghost use Rattle.protocol_names.specs.declared.ProtocolName.{ProtocolName};
ghost use Rattle.sporadic_model.specs.declared.limits.TheConstants.{MOST_TICKS};
ghost use Rattle.text_pieces.specs.Numbers.{number_between};
ghost use Rattle.command_words.specs.declared.words.TheConstants.{MOST_SETS};
ghost use Rattle.command_words.specs.declared.words.TheConstants.{GREATEST_ALLOWANCE};
ghost use Rattle.command_words.specs.Words.{study_form, simulate_form, form_of_three, form_of_four};
ghost use Rattle.command_words.specs.Words.{form_of_five, form_of, words_seen, form_of_six};
ghost use Rattle.command_words.specs.FormSeen.{plain_form, form_seen, HasFittingNumbers};

use protocol_names::{ProtocolName, protocol_named};
use sporadic_model::MOST_TICKS;
use text_pieces::number_between;

/// The units that all programs of an analysis together may take, if the words don't say.
pub const DEFAULT_ALLOWANCE: u64 = 1_000_000;

/// The most units that the words may allow.
pub const GREATEST_ALLOWANCE: u64 = 1_000_000_000;

/// The most sets that a study may make for each step.
pub const MOST_SETS: u64 = 1000;

/// What the words ask for.
#[derive(Clone, Copy, Debug)]
pub enum Command<'a> {
    /// Work on the set of this name, under this protocol.
    OnSet {
        protocol: ProtocolName,
        set: &'a str,
        work: Work<'a>,
    },
    /// Make this many sets for each step from the seed, and count which are schedulable.
    Study {
        seed: u64,
        sets: u32,
    },
}

/// The work on a set. Its further inputs are given by their names.
#[derive(Clone, Copy, Debug)]
pub enum Work<'a> {
    /// No certificate is made or read.
    Plain(PlainWork<'a>),
    /// A certificate is made or read. It carries the digest of the set's bytes.
    Tied(TiedWork<'a>),
}

/// What is asked of a set without a certificate.
#[derive(Clone, Copy, Debug)]
pub enum PlainWork<'a> {
    /// Write the table of the set.
    Report,
    /// Judge the rows for the jobs.
    Conform { jobs: &'a str, rows: &'a str },
    /// Make the schedule of this many ticks for the jobs.
    Simulate { jobs: &'a str, ticks: u64 },
}

/// What is asked of a set and a certificate of it, or one of refusal.
#[derive(Clone, Copy, Debug)]
pub enum TiedWork<'a> {
    /// Find the least bounds of the set within this many units.
    Analyse { allowance: u64 },
    /// Show by a certificate of refusal that no bounds of the set fit, within this many units.
    Refute { allowance: u64 },
    /// Settle the set: find its least bounds, or show that none fit, within this many units.
    Settle { allowance: u64 },
    /// Judge the certificate.
    Check { certificate: &'a str },
    /// Judge the certificate of refusal.
    Confirm { refusal: &'a str },
    /// Judge the certificate of the version before, and write it with the set's digest.
    Upgrade { certificate: &'a str },
    /// Write the table with what the certificate proves.
    FullReport { certificate: &'a str },
    /// Judge the certificate and the rows, and show what happened in the rows next to what the certificate proves.
    Audit(AuditInputs<'a>),
}

/// The names of an audit's inputs after its set. The rows are of the jobs.
#[derive(Clone, Copy, Debug)]
pub struct AuditInputs<'a> {
    pub certificate: &'a str,
    pub jobs: &'a str,
    pub rows: &'a str,
}

/// What the words of `study` ask for.
fn study_of<'a>(seed: &str, sets: &str) -> Option<Command<'a>>
    ensures form { option_map form_seen result ≡ study_form (number_between 0 (2 ^ 64 - 1) seed.now) (number_between 1 MOST_SETS sets.now) }
    ensures ticks { IfSome result (λ c. HasFittingNumbers (form_seen c)) }
{
    match (
        number_between(seed.as_bytes(), 0, u64::MAX),
        number_between(sets.as_bytes(), 1, MOST_SETS),
    ) {
        (Some(seed), Some(sets)) => Some(Command::Study {
            seed,
            sets: sets as u32,
        }),
        _ => None,
    }
}

/// What three words ask for.
fn command_of_three<'a>(command: &str, second: &str, set: &'a str) -> Option<Command<'a>>
    ensures form { option_map form_seen result ≡ form_of_three command.now second.now set.now }
    ensures ticks { IfSome result (λ c. HasFittingNumbers (form_seen c)) }
{
    let work = match command {
        "analyse" => Work::Tied(TiedWork::Analyse {
            allowance: DEFAULT_ALLOWANCE,
        }),
        "refute" => Work::Tied(TiedWork::Refute {
            allowance: DEFAULT_ALLOWANCE,
        }),
        "settle" => Work::Tied(TiedWork::Settle {
            allowance: DEFAULT_ALLOWANCE,
        }),
        "report" => Work::Plain(PlainWork::Report),
        "study" => return study_of(second, set),
        _ => return None,
    };
    let protocol = protocol_named(second)?;
    Some(Command::OnSet {
        protocol,
        set,
        work,
    })
}

/// The allowance that a word gives.
fn allowance_of(word: &str) -> Option<u64>
    ensures { result ≡ number_between 1 GREATEST_ALLOWANCE word.now }
{
    number_between(word.as_bytes(), 1, GREATEST_ALLOWANCE)
}

/// What four words ask for.
fn command_of_four<'a>(
    command: &str,
    protocol: &str,
    set: &'a str,
    last: &'a str,
) -> Option<Command<'a>>
    ensures form { option_map form_seen result ≡ form_of_four command.now protocol.now set.now last.now }
    ensures ticks { IfSome result (λ c. HasFittingNumbers (form_seen c)) }
{
    let protocol = protocol_named(protocol)?;
    let work = match command {
        "analyse" => TiedWork::Analyse {
            allowance: allowance_of(last)?,
        },
        "refute" => TiedWork::Refute {
            allowance: allowance_of(last)?,
        },
        "settle" => TiedWork::Settle {
            allowance: allowance_of(last)?,
        },
        "check" => TiedWork::Check { certificate: last },
        "confirm" => TiedWork::Confirm { refusal: last },
        "upgrade" => TiedWork::Upgrade { certificate: last },
        "report" => TiedWork::FullReport { certificate: last },
        _ => return None,
    };
    Some(Command::OnSet {
        protocol,
        set,
        work: Work::Tied(work),
    })
}

/// The simulation that the words of its jobs and its ticks ask for.
fn simulation<'a>(jobs: &'a str, ticks: &str) -> Option<PlainWork<'a>>
    ensures form { (protocol : ProtocolName) (set : List ℕ)
        → option_map (plain_form protocol set) result ≡ simulate_form (Some protocol) set jobs.now (number_between 1 MOST_TICKS ticks.now) }
    ensures ticks { (protocol : ProtocolName) (set : List ℕ) → IfSome result (λ work. HasFittingNumbers (plain_form protocol set work)) }
{
    let ticks = number_between(ticks.as_bytes(), 1, MOST_TICKS)?;
    Some(PlainWork::Simulate { jobs, ticks })
}

/// What five words ask for.
fn command_of_five<'a>(
    command: &str,
    protocol: &str,
    set: &'a str,
    jobs: &'a str,
    last: &'a str,
) -> Option<Command<'a>>
    ensures form { option_map form_seen result ≡ form_of_five command.now protocol.now set.now jobs.now last.now }
    ensures ticks { IfSome result (λ c. HasFittingNumbers (form_seen c)) }
{
    let protocol = protocol_named(protocol)?;
    let work = match command {
        "conform" => PlainWork::Conform { jobs, rows: last },
        "simulate" => simulation(jobs, last)?,
        _ => return None,
    };
    Some(Command::OnSet {
        protocol,
        set,
        work: Work::Plain(work),
    })
}

/// What six words ask for.
fn command_of_six<'a>(
    command: &str,
    protocol: &str,
    set: &'a str,
    certificate: &'a str,
    jobs: &'a str,
    rows: &'a str,
) -> Option<Command<'a>>
    ensures form { option_map form_seen result ≡ form_of_six command.now protocol.now set.now certificate.now jobs.now rows.now }
    ensures ticks { IfSome result (λ c. HasFittingNumbers (form_seen c)) }
{
    let protocol = protocol_named(protocol)?;
    if command != "audit" {
        return None;
    }
    let inputs = AuditInputs {
        certificate,
        jobs,
        rows,
    };
    Some(Command::OnSet {
        protocol,
        set,
        work: Work::Tied(TiedWork::Audit(inputs)),
    })
}

/// What the words ask for, or none if they have no form. The words are read by their number and position.
pub fn command_of(words: &[String]) -> Option<Command<'_>>
    ensures form { option_map form_seen result ≡ form_of (words_seen words.now) }
    ensures ticks { IfSome result (λ c. HasFittingNumbers (form_seen c)) }
{
    match words {
        [command, second, set] => {
            command_of_three(command.as_str(), second.as_str(), set.as_str())
        }
        [command, protocol, set, last] => command_of_four(
            command.as_str(),
            protocol.as_str(),
            set.as_str(),
            last.as_str(),
        ),
        [command, protocol, set, jobs, last] => command_of_five(
            command.as_str(),
            protocol.as_str(),
            set.as_str(),
            jobs.as_str(),
            last.as_str(),
        ),
        [command, protocol, set, certificate, jobs, rows] => command_of_six(
            command.as_str(),
            protocol.as_str(),
            set.as_str(),
            certificate.as_str(),
            jobs.as_str(),
            rows.as_str(),
        ),
        _ => None,
    }
}
