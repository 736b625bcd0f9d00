ghost use Rattle.std.specs.Prelude.{◌≡◌, ℕ, length, map, string_bytes, ◌<◌};
ghost use Rattle.std.specs.List.{list_any, list_all};
ghost use Rattle.std.specs.Str.{bytes_eq};
ghost use Rattle.sporadic_model.specs.Seen.{task_seen, resource_seen, request_seen};
ghost use Rattle.sporadic_model.specs.Names.{is_name as is_name_text, is_name_byte as is_name_character};
ghost use Rattle.sporadic_model.specs.Refusals.{has_task_named, has_resource_named, has_entry_for};
ghost use Rattle.std.specs.Int.{is_in_range};

use crate::limits::MOST_NAME;
use crate::parts::{RequestPart, ResourcePart, TaskPart};

/// Is `number` from `least` to `most`?
pub(crate) fn is_within(least: u64, most: u64, number: u64) -> bool
    ensures { result ≡ is_in_range least most number }
{
    least <= number && number <= most
}

fn is_name_byte(byte: u8) -> bool
    ensures { result ≡ is_name_character byte }
{
    byte.is_ascii_alphanumeric() || byte == b'_' || byte == b'.' || byte == b'-'
}

fn has_name_bytes(text: &[u8]) -> bool
    ensures { result ≡ list_all is_name_character text.now }
{
    text.iter().all(|byte| is_name_byte(*byte))
}

/// Is the text 1 to 32 bytes of `[A-Za-z0-9_.-]`?
pub(crate) fn is_name(text: &[u8]) -> bool
    ensures { result ≡ is_name_text text.now }
{
    is_within(1, MOST_NAME, text.len() as u64) && has_name_bytes(text)
}

/// Does one of the tasks have the name?
pub(crate) fn is_task_named(tasks: &[TaskPart], name: &[u8]) -> bool
    ensures { result ≡ has_task_named (map task_seen tasks.now) name.now }
{
    tasks.iter().any(|task| task.name.as_bytes() == name)
}

/// Does one of the resources have the name?
pub(crate) fn is_resource_named(resources: &[ResourcePart], name: &[u8]) -> bool
    ensures { result ≡ has_resource_named (map resource_seen resources.now) name.now }
{
    resources
        .iter()
        .any(|resource| resource.name.as_bytes() == name)
}

/// Does one of the entries name the resource?
pub(crate) fn is_entry_for(entries: &[RequestPart], name: &[u8]) -> bool
    ensures { result ≡ has_entry_for (map request_seen entries.now) name.now }
{
    entries
        .iter()
        .any(|entry| entry.resource.as_bytes() == name)
}
