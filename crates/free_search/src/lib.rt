//! A search for the optimum of a blocking program, over numbers of any size.
//!
//! [`search`] makes the exchange run of the program: the least variable enters, the least ratio leaves, and among equal ones the row with
//! the least basic variable. Each row has one denominator, and a number for each variable outside the basis. No number is too large for it.
//!
//! It is proved that it makes this run, and reads off its end. By a law, [`what_is_found_is_best`], this is the best.
#![tactic(auto)]

ghost use Rattle.std.specs.Prelude.{◌≡◌, ◌<◌, ◌≤◌, length, IfOk};
ghost use Rattle.program_form.specs.Program.{columns, height};
ghost use Rattle.free_search.specs.Ends.{Searches};

mod choice;
mod end;
mod found;
mod laws;
mod rounding;
mod row;
mod start;
mod step;
mod tableau;

use choice::entering;
pub use found::{Found, SearchStop};
pub use laws::{no_rounded_dual_is_worth_less, the_end_is_read_in_one_way, what_is_found_is_best};
use program_form::SparseProgram;
pub use rounding::round_down;
use start::first_tableau;
use std::alloc::Global;
use step::{answer_at_end, step};

/// Searches the optimum of a program. The search takes 1 unit, and 1 more for each exchange.
///
/// `Units` comes only if the run needs more units. `Lost` comes only if a number of the dual at the end of the run is above 2^63 - 1, or
/// the optimum is 2^64 or more. `Memory` comes only if memory runs out.
pub fn search(alloc: Global, program: &SparseProgram, units: u64) -> Result<Found, SearchStop>
    ensures searches { Searches result program.now units }
    ensures columns { IfOk result (λ f. length f.num.items ≡ columns program.now) }
    ensures point_den { IfOk result (λ f. 0 < f.den) }
    ensures rows { IfOk result (λ f. length f.dual.num.items ≡ height program.now) }
    ensures dual_den { IfOk result (λ f. 0 < f.dual.den) }
    ensures used { IfOk result (λ f. f.used ≤ units) }
{
    let mut tableau = first_tableau(alloc, program)?;
    for exchanges in 0..units {
        let k = match entering(tableau.objective.nums(), &tableau.outside) {
            Some(k) => k,
            None => return answer_at_end(alloc, program, &tableau, exchanges + 1),
        };
        if exchanges + 1 == units {
            return Err(SearchStop::Units);
        }
        step(alloc, program, &mut tableau, k)?;
    }
    Err(SearchStop::Units)
}
