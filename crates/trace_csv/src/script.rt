ghost use Rattle.std.specs.Prelude.{◌≡◌, ◌==◌, option_map, position};
ghost use Rattle.trace_csv.specs.Scripts.{request_in};
ghost use Rattle.trace_csv.specs.PartsSeen.{request_seen, Divides, IsFirstToken, IsFirstPart};

use sporadic_model::{MOST_NAME, MOST_TICKS};
use text_pieces::number_between;

/// A request by the name of its resource, and how many ticks it takes.
#[derive(Clone, Copy, Debug)]
pub(crate) struct Request<'a> {
    pub(crate) resource: &'a [u8],
    pub(crate) ticks: u64,
}

/// A part of a script: local ticks, and then a request or none.
#[derive(Clone, Copy, Debug)]
pub(crate) struct Part<'a> {
    pub(crate) local: u64,
    pub(crate) request: Option<Request<'a>>,
}

/// The position of the first such byte.
fn place_of(text: &[u8], byte: u8) -> Option<usize>
    ensures { result ≡ position (λ b. b == byte) text.now }
{
    text.iter().position(|b| *b == byte)
}

/// The text before the first such byte, and the text after it.
fn split_at_byte(text: &[u8], byte: u8) -> Option<(&[u8], &[u8])>
    ensures { Divides result text.now byte }
{
    match place_of(text, byte) {
        Some(i) => Some((&text[..i], &text[i + 1..])),
        None => None,
    }
}

/// The text up to its first space, and the text after the space.
fn first_token(text: &[u8]) -> (&[u8], Option<&[u8]>)
    ensures { IsFirstToken result text.now }
{
    match split_at_byte(text, b' ') {
        Some((token, rest)) => (token, Some(rest)),
        None => (text, None),
    }
}

/// The request of a token.
fn request_of(token: &[u8]) -> Option<Request<'_>>
    ensures { option_map request_seen result ≡ request_in token.now }
{
    let Some((resource, ticks)) = split_at_byte(token, b':') else {
        return None;
    };
    if resource.is_empty() || resource.len() as u64 > MOST_NAME {
        return None;
    }
    let ticks = number_between(ticks, 1, MOST_TICKS)?;
    Some(Request { resource, ticks })
}

/// The first part of a script, and the text after it, if that is not the end.
pub(crate) fn first_part(text: &[u8]) -> Option<(Part<'_>, Option<&[u8]>)>
    ensures { IsFirstPart result text.now }
{
    let (token, rest) = first_token(text);
    let local = number_between(token, 1, MOST_TICKS)?;
    let Some(text) = rest else {
        let request = None;
        return Some((Part { local, request }, None));
    };
    let (token, rest) = first_token(text);
    let request = request_of(token)?;
    let part = Part {
        local,
        request: Some(request),
    };
    Some((part, rest))
}
