use program_form::Dual;
use refusal_json::{ReadFault, read_refusal, write_refusal};
use refusal_laws::{Refusal, RefusalStep};
use std::alloc::{AllocError, Global};
use std::process::Abort;
use std::test::Fail;

/// The digest of no set.
const DIGEST: [u8; 32] = [0xab; 32];

/// One step: the response time of the first of two tasks that share a resource is 5 ticks.
const OF_ONE: &str =
    "{\"protocol\":\"mpcp\",\"set\":\"abababababababababababababababababababababababababababababababab\",\"steps\":[{\"point\":{\"den\":1,\"num\":[1]},\"task\":1,\"value\":5}],\"verdict\":\"notshown\",\"version\":1}\n";

fn step(
    alloc: Global,
    task: u64,
    value: u64,
    den: u64,
    num: &[u64],
) -> Result<RefusalStep, AllocError> {
    Ok(RefusalStep {
        task,
        value,
        point: Dual {
            den,
            num: num.to_vec(alloc)?,
        },
    })
}

/// The text of the refusal for no set. It has no contract, so what its callers know doesn't have the text.
fn text_of_refusal(alloc: Global, word: &str, refusal: &Refusal) -> Result<Vec<u8>, AllocError> {
    write_refusal(alloc, word, &DIGEST, refusal)
}

fn of_one(alloc: Global) -> Result<Refusal, AllocError> {
    let mut steps = Vec::new(alloc);
    steps.push(step(alloc, 1, 5, 1, &[1])?)?;
    Ok(Refusal { steps })
}

#[test]
fn writes_the_refusal_of_one_step(rt: HostRuntime) -> Result<(), Fail> {
    let text = text_of_refusal(rt.alloc(), "mpcp", &of_one(rt.alloc())?)?;
    assert_eq!(rt; text.as_slice(), OF_ONE.as_bytes());
    Ok(())
}

/// What the text is read as, written again; or why it is refused.
fn again(alloc: Global, text: &str, word: &str) -> Result<Result<Vec<u8>, ReadFault>, AllocError> {
    match read_refusal(alloc, text.as_bytes(), word) {
        Ok(given) => {
            let digest = given.1;
            Ok(Ok(write_refusal(alloc, word, &digest, &given.0)?))
        }
        Err(fault) => Ok(Err(fault)),
    }
}

/// The same with spaces, its members in another order, and the last of two protocols.
const OF_ONE_SPACED: &str = r#"
    { "version": 1, "verdict": "notshown",
      "steps": [ { "value": 5, "task": 1, "point": { "num": [ 1 ], "den": 1 } } ],
      "set": "abababababababababababababababababababababababababababababababab",
      "protocol": "fmlp+", "protocol": "mpcp" }
"#;

const OF_NONE: &str =
    "{\"protocol\":\"dpcp-w\",\"set\":\"0123456789abcdef0123456789abcdef0123456789abcdef0123456789abcdef\",\"steps\":[],\"verdict\":\"notshown\",\"version\":1}\n";

/// The greatest numbers that a refusal holds.
const GREATEST: &str =
    "{\"protocol\":\"spin\",\"set\":\"abababababababababababababababababababababababababababababababab\",\"steps\":[{\"point\":{\"den\":9223372036854775807,\"num\":[9223372036854775807,0]},\"task\":18446744073709551615,\"value\":0},{\"point\":{\"den\":1,\"num\":[]},\"task\":0,\"value\":18446744073709551615}],\"verdict\":\"notshown\",\"version\":1}\n";

/// A text, the protocol that is asked for, and the text that its refusal gives.
const READ: &[(&str, &str, &str)] = &[
    (OF_ONE, "mpcp", OF_ONE),
    (OF_ONE_SPACED, "mpcp", OF_ONE),
    (OF_NONE, "dpcp-w", OF_NONE),
    (GREATEST, "spin", GREATEST),
];

// What the text is read as gives the wanted text.
fn gives(
    rt: &impl Abort,
    alloc: Global,
    text: &str,
    word: &str,
    wanted: &str,
) -> Result<(), AllocError> {
    match again(alloc, text, word)? {
        Ok(line) => assert_eq!(rt; line.as_slice(), wanted.as_bytes()),
        Err(fault) => assert_eq!(rt; Some(fault), None, "at {text}"),
    }
    Ok(())
}

#[test]
fn reads_what_is_written(rt: HostRuntime) -> Result<(), Fail> {
    for (text, word, wanted) in READ {
        gives(&rt, rt.alloc(), text, word, wanted)?;
    }
    Ok(())
}

fn fault_of(alloc: Global, text: &str, word: &str) -> Option<ReadFault> {
    read_refusal(alloc, text.as_bytes(), word).err()
}

// No command asks for the last two words.
#[test]
fn takes_no_refusal_for_another_protocol(rt: HostRuntime) -> Result<(), Fail> {
    for word in &["fmlp+", "dpcp", "MPCP", ""] {
        let fault = fault_of(rt.alloc(), OF_ONE, word);
        assert!(rt; fault == Some(ReadFault::OtherProtocol));
    }
    Ok(())
}
