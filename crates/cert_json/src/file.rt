use program_form::Certificate;

/// The contents of a certificate's file.
#[derive(Debug, Drop)]
pub struct CertFile {
    /// The certificate.
    pub certificate: Certificate,
    /// The SHA-256 digest of the bytes of the certificate's set.
    pub digest: [u8; 32],
}
