//! Digests of the bytes of a task set, and their texts.

ghost use Rattle.std.specs.Prelude.{◌≡◌, List, ℕ, Some, IfOk, IsUtf8, string_bytes};
ghost use Rattle.std.specs.List.{list_all};
ghost use Rattle.sha2.specs.Sha256.{sha256};
ghost use Rattle.cert_json.specs.Digests.{IsDigest, digest_text, is_digit, is_digest_text, digest_of};

use hex::FromHex;
use sha2::{Digest, Sha256};
use std::alloc::{AllocError, Global};

/// The SHA-256 digest of the bytes. It takes no memory.
pub fn set_digest(bytes: &[u8]) -> [u8; 32]
    ensures { result ≡ sha256 bytes.now }
{
    Sha256::digest(bytes)
}

/// The text of a digest: 64 digits of 0 to 9 and a to f.
pub fn digest_text(alloc: Global, digest: &[u8; 32]) -> Result<String, AllocError>
    ensures { IfOk result (λ text. string_bytes text ≡ digest_text digest.now) }
{
    hex::encode(alloc, digest.as_slice())
}

fn are_digits(text: &[u8]) -> bool
    ensures { result ≡ list_all is_digit text.now }
{
    text.iter()
        .all(|digit| matches!(*digit, b'0'..=b'9' | b'a'..=b'f'))
}

/// Is the text that of a digest?
pub fn is_digest_text(text: &str) -> bool
    ensures { result ≡ is_digest_text text.now }
{
    text.len() == 64 && are_digits(text.as_bytes())
}

/// The digest of the text; none if it is the text of no digest.
pub fn digest_of(text: &str) -> Option<[u8; 32]>
    ensures { result ≡ digest_of text.now }
{
    if !is_digest_text(text) {
        return None;
    }
    <[u8; 32]>::from_hex(text).ok()
}

/// `sha256` of `sha2` gives a digest. The text of a digest is UTF-8, and is read as that digest.
pub fn digests_have_texts()
    ensures digests { (bytes : List ℕ) → IsDigest (sha256 bytes) }
    ensures texts { (digest : List ℕ) → IsUtf8 (digest_text digest) }
    ensures read { (digest : List ℕ) → IsDigest digest → digest_of (digest_text digest) ≡ Some digest }
{}
