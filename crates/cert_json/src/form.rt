ghost use Rattle.std.specs.Prelude.{◌≡◌, map, false, codes};
ghost use Rattle.std.specs.List.{list_all};
ghost use Rattle.std.specs.Option.{option_map_or};
ghost use Rattle.serde_json.specs.View.{view};
ghost use Rattle.serde_json.specs.Find.{get};
ghost use Rattle.taskset_json.specs.Form.{is_object_of};
ghost use Rattle.cert_json.specs.Form.{certificate_form, dual_form, is_from, is_dual};
ghost use Rattle.cert_json.specs.FormParts.{is_whole, is_for};
ghost use Rattle.cert_json.specs.Versions.{old_form, is_certificate_of};

use crate::is_digest_text;
use crate::version::Version;
use crate::words::is_verdict_word;
use program_form::MOST_NUMBER;
use serde_json::Value;
use taskset_json::{Kind, is_object_of, list_at, must, text_at};

fn has_old_members(value: &Value) -> bool
    ensures { result ≡ is_object_of old_form (view value.now) }
{
    let form = [
        must("bounds", Kind::List),
        must("duals", Kind::List),
        must("protocol", Kind::Text),
        must("verdict", Kind::Text),
        must("version", Kind::Whole),
    ];
    is_object_of(value, &form)
}

fn has_members(value: &Value) -> bool
    ensures { result ≡ is_object_of certificate_form (view value.now) }
{
    let form = [
        must("set", Kind::Text),
        must("bounds", Kind::List),
        must("duals", Kind::List),
        must("protocol", Kind::Text),
        must("verdict", Kind::Text),
        must("version", Kind::Whole),
    ];
    is_object_of(value, &form)
}

/// Is the value an object of the version's members, with the text of a digest and the word of the verdict?
pub(crate) fn is_certificate(value: &Value, version: Version) -> bool
    ensures { result ≡ is_certificate_of version (view value.now) }
{
    match version {
        Version::First => has_old_members(value) && is_verdict_word(text_at(value, "verdict")),
        Version::Second => {
            has_members(value)
                && is_digest_text(text_at(value, "set"))
                && is_verdict_word(text_at(value, "verdict"))
        }
    }
}

fn is_whole(value: &Value) -> bool
    ensures { result ≡ is_whole (view value.now) }
{
    value.is_u64()
}

/// Is each of the values a whole number?
pub(crate) fn are_whole(values: &[Value]) -> bool
    ensures { result ≡ list_all is_whole (map view values.now) }
{
    values.iter().all(|value| is_whole(value))
}

/// Is the value a whole number, from `least` to the greatest that a program may hold?
fn is_from(least: u64, value: &Value) -> bool
    ensures { result ≡ is_from least (view value.now) }
{
    value
        .as_u64()
        .is_some_and(|n| least <= n && n <= MOST_NUMBER)
}

fn has_denominator(value: &Value) -> bool
    ensures { result ≡ option_map_or (is_from 1) (get (codes "den") (view value.now)) false }
{
    value.get("den").is_some_and(|den| is_from(1, den))
}

/// Is each of the values a number that a program may hold?
fn are_numerators(values: &[Value]) -> bool
    ensures { result ≡ list_all (is_from 0) (map view values.now) }
{
    values.iter().all(|value| is_from(0, value))
}

fn has_dual_members(value: &Value) -> bool
    ensures { result ≡ is_object_of dual_form (view value.now) }
{
    let form = [must("den", Kind::Whole), must("num", Kind::List)];
    is_object_of(value, &form)
}

/// Is the value a dual: an object of a dual's form, with a denominator of at least 1?
pub fn is_dual(value: &Value) -> bool
    ensures { result ≡ is_dual (view value.now) }
{
    has_dual_members(value) && has_denominator(value) && are_numerators(list_at(value, "num"))
}

/// Has the value's protocol this word?
pub fn is_for(value: &Value, word: &str) -> bool
    ensures { result ≡ is_for word.now (view value.now) }
{
    text_at(value, "protocol") == word
}
