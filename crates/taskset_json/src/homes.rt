ghost use Rattle.std.specs.Prelude.{◌≡◌, option_map, position, IfNone, IfSome, OnOk, OnErr};
ghost use Rattle.std.specs.Option.{is_none};
ghost use Rattle.sporadic_model.specs.Homes.{EachHasHome, HasHomesFor};
ghost use Rattle.taskset_json.specs.Answers.{JudgesHomes};

use crate::refusal::SetRefusal;
use sporadic_model::{Protocol, ResourceId, TaskSet};

fn first_homeless(set: &TaskSet) -> Option<ResourceId>
    ensures first { option_map (λ q. q.0) result ≡ position (λ r. is_none r.home) set.now.resources }
    ensures none { IfNone result (EachHasHome set.now) }
    ensures some { IfSome result (λ q. EachHasHome set.now → ⊥) }
{
    for q in 0..set.resources() {
        if set.home(ResourceId(q)).is_none() {
            return Some(ResourceId(q));
        }
    }
    None
}

/// Has each resource the home that the protocol asks for? Only DPCP asks for homes. The only refusal is [`SetRefusal::NoHome`], with the
/// first resource that has none. It takes no memory.
pub fn home_check(set: &TaskSet, protocol: Protocol) -> Result<(), SetRefusal>
    ensures homes { JudgesHomes result set.now protocol }
    ensures suits { OnOk result (HasHomesFor protocol set.now) }
    ensures lacks { OnErr result (HasHomesFor protocol set.now → ⊥) }
{
    match protocol {
        Protocol::Dpcp => match first_homeless(set) {
            Some(q) => Err(SetRefusal::NoHome(q)),
            None => Ok(()),
        },
        Protocol::Mpcp | Protocol::FmlpPlus => Ok(()),
    }
}
