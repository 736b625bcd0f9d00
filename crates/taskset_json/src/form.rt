ghost use Rattle.std.specs.Prelude.{◌≡◌, map, false};
ghost use Rattle.serde_json.specs.View.{view, members_view};
ghost use Rattle.std.specs.List.{list_all, list_any};
ghost use Rattle.std.specs.Option.{option_map_or};
ghost use Rattle.std.specs.Str.{bytes_eq};
ghost use Rattle.serde_json.specs.Find.{as_object};
ghost use Rattle.taskset_json.specs.Members.{names_of};
ghost use Rattle.taskset_json.specs.Form.{must, may, is_of_kind, gives, is_listed, is_object_of, set_form};
ghost use Rattle.taskset_json.specs.Form.{resource_form, task_form, request_form};
ghost use Rattle.taskset_json.specs.Seen.{member_seen};

use serde_json::{Map, Value};

/// What the value of a member must be.
#[derive(Clone, Copy)]
pub enum Kind {
    /// A string.
    Text,
    /// A whole number below 2^64, one that `as_u64` gives.
    Whole,
    /// An array.
    List,
    /// An object.
    Object,
}

/// A member that objects of a form have.
#[derive(Clone, Copy)]
pub struct Member {
    /// The member's name.
    pub name: &'static str,
    /// The kind of its value.
    pub kind: Kind,
    /// Must each object of the form have it?
    pub required: bool,
}

/// A member that each object of the form has.
pub fn must(name: &'static str, kind: Kind) -> Member
    ensures { member_seen result ≡ must name.now kind }
{
    Member {
        name,
        kind,
        required: true,
    }
}

/// A member that may be absent.
fn may(name: &'static str, kind: Kind) -> Member
    ensures { member_seen result ≡ may name.now kind }
{
    Member {
        name,
        kind,
        required: false,
    }
}

fn is_of_kind(value: &Value, kind: Kind) -> bool
    ensures { result ≡ is_of_kind kind (view value.now) }
{
    match kind {
        Kind::Text => value.is_string(),
        Kind::Whole => value.is_u64(),
        Kind::List => value.is_array(),
        Kind::Object => value.is_object(),
    }
}

/// Has the value the member as it must be?
fn gives(value: &Value, member: &Member) -> bool
    ensures { result ≡ gives (view value.now) (member_seen member.now) }
{
    match value.get(member.name) {
        Some(given) => is_of_kind(given, member.kind),
        None => !member.required,
    }
}

/// Has the value each member as it must be?
fn gives_all(value: &Value, form: &[Member]) -> bool
    ensures { result ≡ list_all (λ m. gives (view value.now) (member_seen m)) form.now }
{
    form.iter().all(|member| gives(value, member))
}

fn is_listed(form: &[Member], name: &str) -> bool
    ensures { result ≡ list_any (λ m. bytes_eq m.name.now name.now) form.now }
{
    form.iter().any(|member| member.name == name)
}

/// Is each of the members one of the form?
fn lists_all(form: &[Member], members: &Map<String, Value>) -> bool
    ensures { result ≡ list_all (is_listed (map member_seen form.now)) (names_of (members_view members.now.entries)) }
{
    members.keys().all(|name| is_listed(form, name.as_str()))
}

/// Is the value an object whose members are all of the form?
fn has_listed_only(value: &Value, form: &[Member]) -> bool
    ensures { result ≡ option_map_or (λ ms. list_all (is_listed (map member_seen form.now)) (names_of ms))
        (as_object (view value.now)) false }
{
    value
        .as_object()
        .is_some_and(|members| lists_all(form, members))
}

/// Is the value an object of the form: is each of its members one of the form, and is each as it must be?
pub fn is_object_of(value: &Value, form: &[Member]) -> bool
    ensures { result ≡ is_object_of (map member_seen form.now) (view value.now) }
{
    has_listed_only(value, form) && gives_all(value, form)
}

/// Is the value a set, as far as its own members say?
pub(crate) fn is_set(value: &Value) -> bool
    ensures { result ≡ is_object_of set_form (view value.now) }
{
    let form = [
        must("processors", Kind::Whole),
        must("tasks", Kind::List),
        may("resources", Kind::List),
    ];
    is_object_of(value, &form)
}

/// Is the value a resource, as far as its own members say?
pub(crate) fn is_resource(value: &Value) -> bool
    ensures { result ≡ is_object_of resource_form (view value.now) }
{
    let form = [must("name", Kind::Text), may("home", Kind::Whole)];
    is_object_of(value, &form)
}

/// Is the value a task, as far as its own members say?
pub(crate) fn is_task(value: &Value) -> bool
    ensures { result ≡ is_object_of task_form (view value.now) }
{
    let form = [
        must("name", Kind::Text),
        must("processor", Kind::Whole),
        must("period", Kind::Whole),
        must("cost", Kind::Whole),
        may("deadline", Kind::Whole),
        may("local", Kind::Whole),
        may("jitter", Kind::Whole),
        may("requests", Kind::List),
    ];
    is_object_of(value, &form)
}

/// Is the value a request entry, as far as its own members say?
pub(crate) fn is_request(value: &Value) -> bool
    ensures { result ≡ is_object_of request_form (view value.now) }
{
    let form = [
        must("resource", Kind::Text),
        must("count", Kind::Whole),
        must("length", Kind::Whole),
    ];
    is_object_of(value, &form)
}
