ghost use Rattle.std.specs.Prelude.{◌≡◌, ℕ, ◌<◌, length, map, slice_index_or, find, position, option_map, string_bytes};
ghost use Rattle.std.specs.Str.{bytes_eq};
ghost use Rattle.sporadic_model.specs.SetDef.{no_task, no_resource, no_request};
ghost use Rattle.sporadic_model.specs.Seen.{task_seen, resource_seen, request_seen};

use crate::parts::{RequestPart, ResourcePart, TaskPart};

/// Task number `x`.
pub(crate) fn task_part(tasks: &[TaskPart], x: usize) -> &TaskPart
    requires { x < length tasks.now }
    ensures { task_seen result.now ≡ slice_index_or (map task_seen tasks.now) x no_task }
{
    &tasks[x]
}

/// Resource number `q`.
pub(crate) fn resource_part(resources: &[ResourcePart], q: usize) -> &ResourcePart
    requires { q < length resources.now }
    ensures { resource_seen result.now ≡ slice_index_or (map resource_seen resources.now) q no_resource }
{
    &resources[q]
}

/// Entry number `j`.
pub(crate) fn request_part(requests: &[RequestPart], j: usize) -> &RequestPart
    requires { j < length requests.now }
    ensures { request_seen result.now ≡ slice_index_or (map request_seen requests.now) j no_request }
{
    &requests[j]
}

/// The first entry that names the resource.
pub(crate) fn entry_for<'a>(entries: &'a [RequestPart], name: &[u8]) -> Option<&'a RequestPart>
    ensures { option_map (λ e. request_seen e.now) result ≡ find (λ e. bytes_eq e.resource name.now) (map request_seen entries.now) }
{
    entries
        .iter()
        .find(|entry| entry.resource.as_bytes() == name)
}

/// The position of the first task of the name.
pub(crate) fn place_of_task(tasks: &[TaskPart], name: &[u8]) -> Option<usize>
    ensures { result ≡ position (λ t. bytes_eq t.name name.now) (map task_seen tasks.now) }
{
    tasks.iter().position(|task| task.name.as_bytes() == name)
}

/// The position of the first resource of the name.
pub(crate) fn place_of_resource(resources: &[ResourcePart], name: &[u8]) -> Option<usize>
    ensures { result ≡ position (λ r. bytes_eq r.name name.now) (map resource_seen resources.now) }
{
    resources
        .iter()
        .position(|resource| resource.name.as_bytes() == name)
}
