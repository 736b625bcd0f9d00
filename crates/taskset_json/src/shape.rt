ghost use Rattle.std.specs.Prelude.{◌≡◌, ◌^◌, ◌<◌, length, map};
ghost use Rattle.std.specs.List.{flat_map};
ghost use Rattle.serde_json.specs.View.{view};
ghost use Rattle.taskset_json.specs.Size.{size, sizes};
ghost use Rattle.taskset_json.specs.FormFaults.{first_of, first_misshapen, resource_object, request_object, task_objects, counted_from};

use crate::form::{is_request, is_resource, is_set, is_task};
use crate::members::list_at;
use serde_json::Value;
use sporadic_model::Place;

fn first_resource(resources: &[Value]) -> Option<Place>
    requires { length resources.now < 2 ^ 32 }
    ensures { result ≡ first_of (map resource_object (counted_from 0 (map view resources.now))) }
{
    for (q, resource) in resources.iter().enumerate() {
        if !is_resource(resource) {
            return Some(Place::Resource(q as u32));
        }
    }
    None
}

fn first_request(task: u32, requests: &[Value]) -> Option<Place>
    requires { length requests.now < 2 ^ 32 }
    ensures { result ≡ first_of (map (request_object task) (counted_from 0 (map view requests.now))) }
{
    for (j, request) in requests.iter().enumerate() {
        if !is_request(request) {
            return Some(Place::Request(task, j as u32));
        }
    }
    None
}

/// The task itself, and then its requests.
fn first_of_task(x: u32, task: &Value) -> Option<Place>
    requires { size (view task.now) < 2 ^ 32 }
    ensures { result ≡ first_of (task_objects (x, view task.now)) }
{
    if !is_task(task) {
        return Some(Place::Task(x));
    }
    first_request(x, list_at(task, "requests"))
}

fn first_task(tasks: &[Value]) -> Option<Place>
    requires { sizes (map view tasks.now) < 2 ^ 32 }
    ensures { result ≡ first_of (flat_map task_objects (counted_from 0 (map view tasks.now))) }
{
    for (x, task) in tasks.iter().enumerate() {
        if let Some(place) = first_of_task(x as u32, task) {
            return Some(place);
        }
    }
    None
}

/// The place of the first object that hasn't its form. The set is tried first, then each resource, then each task with its requests.
pub(crate) fn first_misshapen(value: &Value) -> Option<Place>
    requires { size (view value.now) < 2 ^ 32 }
    ensures { result ≡ first_misshapen (view value.now) }
{
    if !is_set(value) {
        return Some(Place::Root);
    }
    match first_resource(list_at(value, "resources")) {
        Some(place) => Some(place),
        None => first_task(list_at(value, "tasks")),
    }
}
