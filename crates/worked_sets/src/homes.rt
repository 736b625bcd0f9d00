ghost use Rattle.std.specs.Prelude.{◌↔◌, ◌<◌, length, IsTrue};
ghost use Rattle.sporadic_model.specs.Homes.{EachHasHome, HasHomesFor};

use sporadic_model::{Protocol, ResourceId, TaskSet};

fn have_homes(set: &TaskSet) -> bool
    ensures { IsTrue result ↔ EachHasHome set.now }
{
    for q in 0..set.resources() {
        if set.home(ResourceId(q)).is_none() {
            return false;
        }
    }
    true
}

/// Has the set the homes that the protocol asks for?
pub fn suits(set: &TaskSet, protocol: Protocol) -> bool
    ensures { IsTrue result ↔ HasHomesFor protocol set.now }
{
    match protocol {
        Protocol::Dpcp => have_homes(set),
        Protocol::Mpcp | Protocol::FmlpPlus => true,
    }
}
