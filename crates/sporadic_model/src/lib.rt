//! Task sets of the sporadic model: the parts of a set, which sets are accepted, and what you can ask of an accepted set. Tasks are listed
//! from the highest base priority to the lowest.
#![tactic(auto)]

mod boosts;
mod demands;
mod ids;
mod jobs;
mod judging;
mod limits;
mod lookup;
mod names;
mod parts;
mod refusal;
mod set_laws;
mod task_set;
mod users;

pub use ids::{Protocol, ResourceId, TaskId};
pub use jobs::jobs_in;
pub use limits::{
    MOST_COUNT, MOST_NAME, MOST_PROCESSORS, MOST_REQUESTS, MOST_RESOURCES, MOST_TASKS, MOST_TICKS,
};
pub use parts::{Parts, RequestPart, ResourcePart, TaskPart};
pub use refusal::{ModelRefusal, Place, SizeOf};
pub use set_laws::{latest_bounds_meet_deadlines, limits_are_fixed, refusals_are_exact};
pub use task_set::TaskSet;
