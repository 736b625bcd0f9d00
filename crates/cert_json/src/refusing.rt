ghost use Rattle.std.specs.Prelude.{◌≡◌, ◌<◌, ◌^◌, length, map, not, IfSome, position};
ghost use Rattle.serde_json.specs.View.{view};
ghost use Rattle.taskset_json.specs.Size.{size};
ghost use Rattle.cert_json.specs.Form.{is_dual};
ghost use Rattle.cert_json.specs.Refusals.{version_refusal, first_bad_dual, first_refusal};

use crate::form::{are_whole, is_certificate, is_dual, is_for};
use crate::refusal::{CertPlace, CertRefusal};
use crate::version::{Version, number_of};
use serde_json::Value;
use taskset_json::{list_at, whole_at};

/// The version is tried before the members, since a certificate of another version may have others.
fn version_refusal(version: Version, given: Option<u64>) -> Option<CertRefusal>
    ensures { result ≡ version_refusal version given }
{
    match given {
        None => Some(CertRefusal::Shape(CertPlace::Root)),
        Some(n) if n == number_of(version) => None,
        Some(_) => Some(CertRefusal::Version),
    }
}

fn misshapen(duals: &[Value]) -> Option<usize>
    ensures place { result ≡ position (λ v. not (is_dual (view v))) duals.now }
    ensures within { IfSome result (λ k. k < length duals.now) }
{
    duals.iter().position(|dual| !is_dual(dual))
}

/// The position of the first value that is no dual.
fn first_misshapen(duals: &[Value]) -> Option<u32>
    requires { length duals.now < 2 ^ 32 }
    ensures { result ≡ position (λ e. not (is_dual e)) (map view duals.now) }
{
    match misshapen(duals) {
        Some(k) => Some(k as u32),
        None => None,
    }
}

fn first_bad_dual(value: &Value) -> Option<u32>
    requires { size (view value.now) < 2 ^ 32 }
    ensures { result ≡ first_bad_dual (view value.now) }
{
    first_misshapen(list_at(value, "duals"))
}

/// The first cause to refuse the value as a certificate of the version, for the protocol of the word.
pub(crate) fn first_refusal(value: &Value, version: Version, word: &str) -> Option<CertRefusal>
    requires { size (view value.now) < 2 ^ 32 }
    ensures { result ≡ first_refusal version word.now (view value.now) }
{
    if let Some(refusal) = version_refusal(version, whole_at(value, "version")) {
        return Some(refusal);
    }
    if !is_certificate(value, version) {
        return Some(CertRefusal::Shape(CertPlace::Root));
    }
    if !are_whole(list_at(value, "bounds")) {
        return Some(CertRefusal::Shape(CertPlace::Bounds));
    }
    if let Some(k) = first_bad_dual(value) {
        return Some(CertRefusal::Shape(CertPlace::Dual(k)));
    }
    if is_for(value, word) {
        None
    } else {
        Some(CertRefusal::OtherProtocol)
    }
}
