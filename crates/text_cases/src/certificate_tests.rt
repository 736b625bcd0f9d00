use cert_json::{CertRefusal, digest_text, read, read_old, set_digest, write};
use program_form::{Certificate, Dual};
use std::alloc::{AllocError, Global};
use std::process::Abort;
use std::test::Fail;

/// No text of these tests has more bytes.
const MOST_TEXT: usize = 600_000;

/// The digest of no set.
const DIGEST: [u8; 32] = [0xab; 32];

/// The certificate of two tasks that share a resource, and its text before certificates had digests.
const OF_TWO: &str =
    "{\"bounds\":[5,5],\"duals\":[{\"den\":1,\"num\":[2,0,0,0]},{\"den\":1,\"num\":[1,0,0,0]}],\"protocol\":\"fmlp+\",\"set\":\"abababababababababababababababababababababababababababababababab\",\"verdict\":\"schedulable\",\"version\":2}\n";

const OLD_OF_TWO: &str =
    "{\"bounds\":[5,5],\"duals\":[{\"den\":1,\"num\":[2,0,0,0]},{\"den\":1,\"num\":[1,0,0,0]}],\"protocol\":\"fmlp+\",\"verdict\":\"schedulable\",\"version\":1}\n";

/// A text, and its digest as the standard gives it.
const DIGESTS: &[(&str, &str)] = &[
    (
        "abc",
        "ba7816bf8f01cfea414140de5dae2223b00361a396177a9cb410ff61f20015ad",
    ),
    (
        "",
        "e3b0c44298fc1c149afbf4c8996fb92427ae41e4649b934ca495991b7852b855",
    ),
];

// The digest of the text is written so.
fn is_digest(rt: &impl Abort, alloc: Global, text: &str, wanted: &str) -> Result<(), AllocError> {
    let digest = digest_text(alloc, &set_digest(text.as_bytes()))?;
    assert_eq!(rt; digest.as_str(), wanted);
    Ok(())
}

#[test]
fn a_digest_is_written_in_hexadecimal(rt: HostRuntime) -> Result<(), Fail> {
    for (text, wanted) in DIGESTS {
        is_digest(&rt, rt.alloc(), text, wanted)?;
    }
    Ok(())
}

fn dual(alloc: Global, den: u64, num: &[u64]) -> Result<Dual, AllocError> {
    Ok(Dual {
        den,
        num: num.to_vec(alloc)?,
    })
}

fn of_two(alloc: Global) -> Result<Certificate, AllocError> {
    let mut duals = Vec::new(alloc);
    duals.push(dual(alloc, 1, &[2, 0, 0, 0])?)?;
    duals.push(dual(alloc, 1, &[1, 0, 0, 0])?)?;
    Ok(Certificate {
        bounds: vec![in alloc; 5, 5]?,
        duals,
    })
}

/// The text of the certificate of no set. It has no contract, so what its callers know doesn't have the text.
fn text_of_certificate(
    alloc: Global,
    word: &str,
    certificate: &Certificate,
) -> Result<Vec<u8>, AllocError> {
    write(alloc, word, &DIGEST, certificate)
}

#[test]
fn writes_the_certificate_of_two_tasks(rt: HostRuntime) -> Result<(), Fail> {
    let certificate = of_two(rt.alloc())?;
    let text = text_of_certificate(rt.alloc(), "fmlp+", &certificate)?;
    assert_eq!(rt; text.as_slice(), OF_TWO.as_bytes());
    Ok(())
}

/// What the text is read as, written again; or why it is refused.
fn again(
    alloc: Global,
    text: &[u8],
    word: &str,
) -> Result<Result<Vec<u8>, CertRefusal>, AllocError> {
    if text.len() > MOST_TEXT {
        return Ok(Err(CertRefusal::NotJson));
    }
    match read(alloc, text, word) {
        Ok(file) => Ok(Ok(write(alloc, word, &file.digest, &file.certificate)?)),
        Err(refusal) => Ok(Err(refusal)),
    }
}

/// The certificate of two tasks, with spaces and its members in another order.
const OF_TWO_SPACED: &str = r#"
    { "version": 2, "verdict": "schedulable", "protocol": "fmlp+",
      "set": "abababababababababababababababababababababababababababababababab",
      "duals": [ {"num": [2, 0, 0, 0], "den": 1}, {"num": [1, 0, 0, 0], "den": 1} ],
      "bounds": [ 5, 5 ] }
"#;

const FOR_DPCP: &str =
    "{\"bounds\":[6,6],\"duals\":[{\"den\":1,\"num\":[2,0,0]},{\"den\":1,\"num\":[1,1,0]}],\"protocol\":\"dpcp\",\"set\":\"0123456789abcdef0123456789abcdef0123456789abcdef0123456789abcdef\",\"verdict\":\"schedulable\",\"version\":2}\n";

/// The greatest numbers that a certificate holds.
const GREATEST: &str =
    "{\"bounds\":[18446744073709551615,0],\"duals\":[{\"den\":9223372036854775807,\"num\":[9223372036854775807]},{\"den\":1,\"num\":[]}],\"protocol\":\"mpcp\",\"set\":\"abababababababababababababababababababababababababababababababab\",\"verdict\":\"schedulable\",\"version\":2}\n";

/// A text, the protocol that is asked for, and the text that its certificate gives.
const READ: &[(&str, &str, &str)] = &[
    (OF_TWO, "fmlp+", OF_TWO),
    (OF_TWO_SPACED, "fmlp+", OF_TWO),
    (FOR_DPCP, "dpcp", FOR_DPCP),
    (GREATEST, "mpcp", GREATEST),
];

// What the text is read as gives the wanted text.
fn gives(
    rt: &impl Abort,
    alloc: Global,
    text: &str,
    word: &str,
    wanted: &str,
) -> Result<(), AllocError> {
    match again(alloc, text.as_bytes(), word)? {
        Ok(line) => assert_eq!(rt; line.as_slice(), wanted.as_bytes()),
        Err(refusal) => assert_eq!(rt; Some(refusal), None, "at {text}"),
    }
    Ok(())
}

#[test]
fn reads_what_is_written(rt: HostRuntime) -> Result<(), Fail> {
    for (text, word, wanted) in READ {
        gives(&rt, rt.alloc(), text, word, wanted)?;
    }
    Ok(())
}

fn refusal_of(alloc: Global, text: &str, word: &str) -> Result<Option<CertRefusal>, AllocError> {
    Ok(again(alloc, text.as_bytes(), word)?.err())
}

// No command asks for the last two words.
#[test]
fn refuses_a_certificate_for_another_protocol(rt: HostRuntime) -> Result<(), Fail> {
    for word in &["mpcp", "dpcp", "fmlp", ""] {
        let refusal = refusal_of(rt.alloc(), OF_TWO, word)?;
        assert!(rt; refusal == Some(CertRefusal::OtherProtocol));
    }
    Ok(())
}

/// What the text of version 1 is read as, written as version 2; or why it is refused.
fn upgraded_text(
    alloc: Global,
    text: &str,
    word: &str,
) -> Result<Result<Vec<u8>, CertRefusal>, AllocError> {
    if text.len() > MOST_TEXT {
        return Ok(Err(CertRefusal::NotJson));
    }
    match read_old(alloc, text.as_bytes(), word) {
        Ok(certificate) => Ok(Ok(text_of_certificate(alloc, word, &certificate)?)),
        Err(refusal) => Ok(Err(refusal)),
    }
}

#[test]
fn the_version_before_is_written_with_a_digest(rt: HostRuntime) -> Result<(), Fail> {
    match upgraded_text(rt.alloc(), OLD_OF_TWO, "fmlp+")? {
        Ok(text) => assert_eq!(rt; text.as_slice(), OF_TWO.as_bytes()),
        Err(refusal) => assert_eq!(rt; Some(refusal), None),
    }
    Ok(())
}

/// A certificate of 64 tasks, whose duals have 400 numerators of 19 digits each.
fn largest_certificate(alloc: Global) -> Result<Certificate, AllocError> {
    let mut duals = Vec::new(alloc);
    for x in 0..64u64 {
        duals.push(Dual {
            den: 9_223_372_036_854_775_807,
            num: vec![in alloc; 1_000_000_000_000_000_000 + x; 400]?,
        })?;
    }
    Ok(Certificate {
        bounds: vec![in alloc; 1_000_000_000; 64]?,
        duals,
    })
}

#[test]
fn reads_half_a_megabyte_that_was_written(rt: HostRuntime) -> Result<(), Fail> {
    let text = text_of_certificate(rt.alloc(), "dpcp", &largest_certificate(rt.alloc())?)?;
    if text.len() < 512_000 || text.len() > MOST_TEXT {
        return Err("64 times 400 numerators take 20 bytes each".into());
    }
    match again(rt.alloc(), &text, "dpcp")? {
        Ok(again) => assert!(rt; again == text),
        Err(refusal) => assert_eq!(rt; Some(refusal), None),
    }
    Ok(())
}
