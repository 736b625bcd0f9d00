//! What follows for tables, bounds and stretches from the laws of charged protocols. Each function is a law: it does nothing.

ghost use Rattle.std.specs.Prelude.{◌≡◌, ℕ, ◌+◌, ◌≤◌, ◌<◌, Bool, List, None, length, slice_index, sum_by};
ghost use Rattle.number_laws.specs.Sums.{sum_below, only_if};
ghost use Rattle.number_laws.specs.Tests.{count_below};
ghost use Rattle.sporadic_model.specs.SetDef.{SetDef};
ghost use Rattle.schedule_model.specs.LawfulJobs.{AreLawfulJobs};
ghost use Rattle.schedule_model.specs.RowDef.{Trace, jobs_of};
ghost use Rattle.schedule_model.specs.Phase.{phase_of};
ghost use Rattle.schedule_model.specs.Phase.Phase.{Finished};
ghost use Rattle.schedule_model.specs.Keeping.{KeepsRow};
ghost use Rattle.schedule_model.specs.BlockedTicks.{is_blocked};
ghost use Rattle.schedule_laws.specs.Steady.{IsSteady};
ghost use Rattle.charge_laws.specs.Windows.{bound_end, window_end};
ghost use Rattle.soundness_laws.specs.Sound.{IsLawfulSchedule, Sound};
ghost use Rattle.charge.specs.Passed.{first_passed};
ghost use Rattle.charge.specs.Requests.{charged_request};
ghost use Rattle.charge.specs.Table.{ItemDef, IsChargeTable};

use charged_protocols::ChargedProtocol;
use schedule_model::BlockingProtocol;

/// Under every protocol no job of a lawful schedule passes a sound bound. Each job whose release plus bound is within the schedule is
/// finished by then.
pub fn sound_bounds_are_never_passed<P: BlockingProtocol>()
    ensures finished { (p : P) (set : SetDef) (bounds values : List ℕ) (w : Trace) (n j : ℕ)
        → Sound (P.keeps p) (P.interferes p) set bounds values → IsLawfulSchedule (P.keeps p) set w n → j < length w.jobs
        → bound_end w (slice_index bounds) j ≤ n → phase_of w (bound_end w (slice_index bounds) j) j ≡ Finished }
    ensures none { (p : P) (set : SetDef) (bounds values : List ℕ) (w : Trace) (n : ℕ)
        → Sound (P.keeps p) (P.interferes p) set bounds values → IsLawfulSchedule (P.keeps p) set w n
        → first_passed w (slice_index bounds) n ≡ None }
{}

/// For any choice of blocked jobs, the ticks of their items add up to the blocked ticks within these jobs' windows.
pub fn charges_add_up<P: ChargedProtocol>()
    ensures { (p : P) (w : Trace) (bound : ℕ → ℕ) (n : ℕ) (items : List ItemDef) (those : ℕ → Bool)
        → IsChargeTable (P.charges p) (P.interferes p) w bound n items
        → sum_by (λ item. only_if (those item.blocked) item.ticks) items
        ≡ sum_below (length w.jobs) (λ j.
        only_if (those j) (count_below (window_end w bound n j) (λ t. is_blocked (P.interferes p) w t j))) }
{}

/// Take a steady stretch that begins with a row that keeps the rules, under any charged protocol. A job is blocked at each of its ticks, or
/// at none. Each tick is charged to the same request, in the same way.
pub fn steady_ticks_are_charged_alike<P: ChargedProtocol>()
    ensures blocked { (p : P) (w : Trace) (t n : ℕ) → P.suits p w.set → AreLawfulJobs (jobs_of w) → IsSteady w t n
        → KeepsRow (P.keeps p) w t → (i j : ℕ) → i < n → is_blocked (P.interferes p) w (t + i) j ≡ is_blocked (P.interferes p) w t j }
    ensures charged { (p : P) (w : Trace) (t n : ℕ) → P.suits p w.set → AreLawfulJobs (jobs_of w) → IsSteady w t n
        → KeepsRow (P.keeps p) w t → (i j : ℕ) → i < n
        → charged_request (P.charges p) w (t + i) j ≡ charged_request (P.charges p) w t j }
{}
