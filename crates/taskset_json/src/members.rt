ghost use Rattle.std.specs.Prelude.{◌≡◌, map, option_map, option_and_then};
ghost use Rattle.serde_json.specs.View.{view, items_view};
ghost use Rattle.serde_json.specs.Find.{get, as_array};
ghost use Rattle.taskset_json.specs.Members.{whole_at, whole_or, text_at, list_at};

use serde_json::Value;

/// The whole number of the member, if there is one.
pub fn whole_at(value: &Value, name: &str) -> Option<u64>
    ensures { result ≡ whole_at name.now (view value.now) }
{
    value.get(name).and_then(Value::as_u64)
}

/// The whole number of the member, or `other` if there is none.
pub(crate) fn whole_or(value: &Value, name: &str, other: u64) -> u64
    ensures { result ≡ whole_or other name.now (view value.now) }
{
    whole_at(value, name).unwrap_or(other)
}

/// The text of the member, empty if there is none.
pub fn text_at<'a>(value: &'a Value, name: &str) -> &'a str
    ensures { result.now ≡ text_at name.now (view value.now) }
{
    value.get(name).and_then(Value::as_str).unwrap_or("")
}

fn list_member<'a>(value: &'a Value, name: &str) -> Option<&'a Vec<Value>>
    ensures { option_map (λ v. items_view v.now.items) result ≡ option_and_then as_array (get name.now (view value.now)) }
{
    value.get(name).and_then(Value::as_array)
}

/// The values of the member's list, or none if there is no list.
pub fn list_at<'a>(value: &'a Value, name: &str) -> &'a [Value]
    ensures { map view result.now ≡ list_at name.now (view value.now) }
{
    match list_member(value, name) {
        Some(list) => list.as_slice(),
        None => &[],
    }
}
