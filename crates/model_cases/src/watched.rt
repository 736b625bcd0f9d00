//! Sources of programs that record which calls there were, and when.

use program_form::Program;
use program_sources::ProgramSource;
use protocol_programs::Written;
use sporadic_model::{TaskId, TaskSet};
use std::alloc::{AllocError, Global};
use std::sync::atomic::{AtomicBool, Ordering};

const MOST_TURNS: u64 = 1_000_000_000;

/// What the first task and the others know of each other: has the first call for one side come, and did it see the other side's?
#[derive(Clone, Copy)]
pub struct Side<'a> {
    pub came: &'a AtomicBool,
    pub saw: &'a AtomicBool,
}

/// The first call for task 0 and the first one for any other task wait a while for each other.
#[derive(Clone, Copy)]
pub struct Meeting<'a> {
    pub first: Side<'a>,
    pub others: Side<'a>,
}

/// Which calls are watched.
#[derive(Clone, Copy)]
pub enum Watch<'a> {
    /// Those for programs meet.
    Programs(Meeting<'a>),
    /// The calls for the recurrence meet, if it is computed at other bounds than these, with which the rounds begin. That is in a later
    /// round, after its programs are solved.
    Later(Meeting<'a>, &'a [u64]),
    /// Whether the recurrence of this task is computed, which is after its program is solved.
    Taken(TaskId, &'a AtomicBool),
}

/// The programs of a protocol.
#[derive(Clone, Copy)]
pub struct Watched<'a> {
    pub written: Written,
    pub watch: Watch<'a>,
}

/// The flags of a meeting.
#[derive(Drop)]
pub struct Flags {
    first_came: AtomicBool,
    first_saw: AtomicBool,
    others_came: AtomicBool,
    others_saw: AtomicBool,
}

impl Flags {
    pub fn new() -> Flags {
        Flags {
            first_came: AtomicBool::new(false),
            first_saw: AtomicBool::new(false),
            others_came: AtomicBool::new(false),
            others_saw: AtomicBool::new(false),
        }
    }

    pub fn meeting(&self) -> Meeting<'_> {
        Meeting {
            first: Side {
                came: &self.first_came,
                saw: &self.first_saw,
            },
            others: Side {
                came: &self.others_came,
                saw: &self.others_saw,
            },
        }
    }

    /// Did each side see that the other has come?
    pub fn have_met(&self) -> bool {
        self.first_saw.load(Ordering::SeqCst) && self.others_saw.load(Ordering::SeqCst)
    }
}

// Notes that one side has come, and looks for the other.
fn meet(one: Side<'_>, other: Side<'_>) {
    if one.came.swap(true, Ordering::SeqCst) {
        return;
    }
    for _ in 0..MOST_TURNS {
        if other.came.load(Ordering::SeqCst) {
            one.saw.store(true, Ordering::SeqCst);
            return;
        }
    }
}

impl<'a> Meeting<'a> {
    // Notes a call for this task.
    fn meet_for(&self, task: TaskId) {
        if task.0 == 0 {
            meet(self.first, self.others);
        } else {
            meet(self.others, self.first);
        }
    }
}

impl<'a> Watch<'a> {
    fn see_program(&self, i: TaskId) {
        if let Watch::Programs(meeting) = self {
            meeting.meet_for(i);
        }
    }

    fn see_recurrence(&self, i: TaskId, bounds: &[u64]) {
        match self {
            Watch::Programs(_) => {}
            Watch::Later(meeting, begun) => {
                if bounds != *begun {
                    meeting.meet_for(i);
                }
            }
            Watch::Taken(task, taken) => {
                if i == *task {
                    taken.store(true, Ordering::SeqCst);
                }
            }
        }
    }
}

impl<'a> ProgramSource for Watched<'a> {
    ghost use Rattle.sporadic_model.specs.Homes.{HasHomesFor};
    ghost use Rattle.program_laws.specs.Programs.{source_of};
    ghost use Rattle.program_laws.proofs.WrittenPrograms.{written_program, programs_rise, interfering_least, interfering_most};
    ghost use Rattle.program_laws.proofs.CoveredColumns.{covered};

    ghost serves = { λ p set. HasHomesFor p.written.0 set };

    ghost source = { λ p. source_of p.written.0 };

    ghost covers = { λ p set i r c served here within. covered p.written.0 set i r c within };

    ghost rises = { λ p set i r s served here most. programs_rise p.written.0 set i r s here most };

    ghost is_program = { λ p set i r served accepted here within. written_program p.written.0 set i r accepted here within };

    ghost least = { λ p set h served here numbers. interfering_least p.written.0 set h numbers };

    ghost most = { λ p set h served here numbers. interfering_most p.written.0 set h numbers };

    fn program(
        &self,
        alloc: Global,
        set: &TaskSet,
        i: TaskId,
        bounds: &[u64],
    ) -> Result<Program, AllocError> {
        self.watch.see_program(i);
        self.written.program(alloc, set, i, bounds)
    }

    fn interference(&self, set: &TaskSet, i: TaskId, bounds: &[u64]) -> u64 {
        self.watch.see_recurrence(i, bounds);
        self.written.interference(set, i, bounds)
    }
}
