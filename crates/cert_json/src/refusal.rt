ghost use Rattle.std.specs.Prelude.{◌≡◌};

use std::alloc::AllocError;
use thiserror::Error;

/// Where a value does not have the form of a certificate.
#[derive(Clone, Copy, Debug, PartialEq, Eq)]
pub enum CertPlace {
    /// The object itself.
    Root,
    /// The list of bounds.
    Bounds,
    /// The dual at this position, counted from 0.
    Dual(u32),
}

/// Why bytes are not read as a certificate for a protocol.
#[derive(Clone, Copy, Debug, PartialEq, Eq, Error)]
pub enum CertRefusal {
    /// The bytes are no JSON text that `serde_json` reads: they are not UTF-8, break JSON's grammar, are nested deeper than 127 levels, or
    /// have a number beyond the range of a float.
    #[error("the certificate is no JSON text")]
    NotJson,
    /// The value at the place doesn't have its form. Of the object itself, the version is tried first.
    #[error("the certificate does not have its form")]
    Shape(CertPlace),
    /// The version is a whole number, but not the one that is read.
    #[error("the certificate has another version")]
    Version,
    /// The certificate is for another protocol than the one that you asked for.
    #[error("the certificate is for another protocol")]
    OtherProtocol,
    /// Memory was refused.
    #[error("out of memory")]
    Memory,
}

impl From<AllocError> for CertRefusal {
    ghost use Rattle.cert_json.specs.declared.refusal.CertRefusal.TheVariants.{Memory};

    ghost from_gives = { λ _ refusal. refusal ≡ Memory };

    fn from(_error: AllocError) -> CertRefusal {
        CertRefusal::Memory
    }
}
