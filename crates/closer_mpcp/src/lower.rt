//! Which lower tasks than the analysed one can hold a resource: how many requests of it one job of each makes, summed by processor.

ghost use Rattle.std.specs.Prelude.{◌<◌, nat_lt, length, IfOk};
ghost use Rattle.number_laws.specs.Sums.{only_if};
ghost use Rattle.sporadic_model.specs.Users.{count_of};
ghost use Rattle.closer_mpcp.specs.Given.{AreTaskAndResource};
ghost use Rattle.closer_mpcp.specs.Sums.{AreLowerSumsOf, AreLowerSums};

use crate::sums::{Requests, Sums, sums_of};
use sporadic_model::{ResourceId, TaskId, TaskSet};
use std::alloc::{AllocError, Global};

/// The requests that one job of each lower task makes.
#[derive(Drop)]
struct OfLower {
    i: TaskId,
}

impl Requests for OfLower {
    ghost use Rattle.std.proofs.Common.{◌≡◌, ap, ◌∙◌, arith};
    ghost use Rattle.std.proofs.lemmas.Bool.{ltb-false};
    ghost use Rattle.number_laws.proofs.OnlyIfLaws.{only_if-nothing};

    ghost made = { λ k set r y. only_if (nat_lt k.i.0 y) (count_of set y r) };

    ghost fits = { λ k set. Unit {0} };

    fn number(&self, set: &TaskSet, r: ResourceId, y: TaskId) -> u64 {
        if self.i < y { set.count(y, r) } else { 0 }
    }

    ghost none = { λ k set r y unused.
        let none : count_of set y r ≡ 0 = omega (arith, ltb-false 0 (count_of set y r) unused) in
        ap (only_if (nat_lt k.i.0 y)) none ∙ only_if-nothing (nat_lt k.i.0 y) };
}

// The sums of those of `r`.
fn lower_sums(set: &TaskSet, i: TaskId, r: ResourceId) -> Sums
    requires { AreTaskAndResource set.now i.0 r.0 }
    ensures { AreLowerSumsOf set.now i.0 r.0 result }
{
    // no task stands behind the last one, so none is left out
    let tasks = set.tasks();
    sums_of(set, &OfLower { i }, TaskId(tasks), r)
}

/// Those by tasks that are lower than `i`, of each resource that `i` requests, in their order.
pub(crate) fn lower_sums_of_used(
    alloc: Global,
    set: &TaskSet,
    i: TaskId,
) -> Result<Vec<Sums>, AllocError>
    requires { i.0 < length set.now.tasks }
    ensures { IfOk result (λ v. AreLowerSums set.now i.0 v.items) }
{
    let used = set.used_by(i);
    let mut each = Vec::with_capacity(alloc, used.len())?;
    for k in 0..used.len() {
        each.push(lower_sums(set, i, used[k]))?;
    }
    Ok(each)
}
