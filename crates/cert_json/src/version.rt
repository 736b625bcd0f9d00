ghost use Rattle.std.specs.Prelude.{◌≡◌};
ghost use Rattle.cert_json.specs.Versions.{number_of};

/// The versions of certificates.
#[derive(Clone, Copy, Debug, PartialEq, Eq)]
pub enum Version {
    /// Without the set's digest.
    First,
    /// With the set's digest.
    Second,
}

/// The number of a version.
pub(crate) fn number_of(version: Version) -> u64
    ensures { result ≡ number_of version }
{
    match version {
        Version::First => 1,
        Version::Second => 2,
    }
}
