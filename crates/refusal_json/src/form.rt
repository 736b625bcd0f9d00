ghost use Rattle.std.specs.Prelude.{◌≡◌, map, false, codes};
ghost use Rattle.std.specs.List.{list_all};
ghost use Rattle.std.specs.Option.{option_map_or};
ghost use Rattle.serde_json.specs.View.{view};
ghost use Rattle.serde_json.specs.Find.{get};
ghost use Rattle.taskset_json.specs.Form.{is_object_of};
ghost use Rattle.cert_json.specs.Form.{is_dual};
ghost use Rattle.refusal_json.specs.Form.{refusal_form, step_form, is_version, is_verdict_word, is_step, is_refusal};

use cert_json::{is_digest_text, is_dual};
use serde_json::Value;
use taskset_json::{Kind, is_object_of, list_at, must, text_at, whole_at};

fn has_members(value: &Value) -> bool
    ensures { result ≡ is_object_of refusal_form (view value.now) }
{
    let form = [
        must("protocol", Kind::Text),
        must("set", Kind::Text),
        must("steps", Kind::List),
        must("verdict", Kind::Text),
        must("version", Kind::Whole),
    ];
    is_object_of(value, &form)
}

fn has_step_members(value: &Value) -> bool
    ensures { result ≡ is_object_of step_form (view value.now) }
{
    let form = [
        must("point", Kind::Object),
        must("task", Kind::Whole),
        must("value", Kind::Whole),
    ];
    is_object_of(value, &form)
}

fn has_point(value: &Value) -> bool
    ensures { result ≡ option_map_or is_dual (get (codes "point") (view value.now)) false }
{
    value.get("point").is_some_and(|point| is_dual(point))
}

/// Is the value a step: an object of a step's members, whose point has the form of a dual?
fn is_step(value: &Value) -> bool
    ensures { result ≡ is_step (view value.now) }
{
    has_step_members(value) && has_point(value)
}

fn are_steps(values: &[Value]) -> bool
    ensures { result ≡ list_all is_step (map view values.now) }
{
    values.iter().all(|value| is_step(value))
}

/// Is it the word of the verdict that a set isn't shown?
fn is_verdict_word(word: &str) -> bool
    ensures { result ≡ is_verdict_word word.now }
{
    word == "notshown"
}

fn is_version(value: &Value) -> bool
    ensures { result ≡ is_version (view value.now) }
{
    whole_at(value, "version").is_some_and(|n| n == 1)
}

/// Has the value the form of a refusal, for any protocol?
pub(crate) fn is_refusal(value: &Value) -> bool
    ensures { result ≡ is_refusal (view value.now) }
{
    has_members(value)
        && is_digest_text(text_at(value, "set"))
        && is_verdict_word(text_at(value, "verdict"))
        && is_version(value)
        && are_steps(list_at(value, "steps"))
}
