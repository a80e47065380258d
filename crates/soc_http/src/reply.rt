//! Replies.
ghost use Rattle.std.specs.Prelude.{◌≡◌, ◌≤◌, OnOk, OnErr, length, decimal};
ghost use Rattle.soc_edge.specs.Told.{Told, Writes, WritesFront, WriteFailed};
ghost use Rattle.soc_http.specs.Reply.{reply_text, phrase_of, media_type, policy_lines, allow_line, close_line};
ghost use Rattle.soc_http.specs.inner.Pieces.{pieces_text};

use crate::pieces::write_pieces;
use crate::verb::Verb;
use http::StatusCode;
use soc_base::Bytes;
use soc_edge::{Failed, Sink};
use thiserror::Error;

/// The media type of a reply's body.
#[derive(Clone, Copy, Debug, PartialEq, Eq)]
pub enum Kind {
    /// `text/plain`
    Plain,
    /// `application/json`
    Json,
    /// `application/octet-stream`
    Octets,
    /// `text/html; charset=utf-8`
    Html,
    /// The service's own page: HTML, with the lines that say what a browser lets it do.
    OwnPage,
}

/// What a message is answered.
#[derive(Debug, Drop)]
pub struct Answered {
    /// The status code, as 200. Its phrase is `http`'s.
    pub status: u16,
    pub kind: Kind,
    /// The method that the path takes, `Get` or `Post`, for a 405.
    pub allow: Option<Verb>,
    /// Whether the connection ends behind this reply.
    pub last: bool,
    pub body: Bytes,
}

/// The sink failed.
#[derive(Clone, Copy, Debug, PartialEq, Eq, Error)]
#[error("write fault")]
pub struct WriteFault;

impl From<Failed> for WriteFault {
    fn from(_error: Failed) -> WriteFault {
        WriteFault
    }
}

fn phrase_of(status: u16) -> &'static [u8]
    ensures { result.now ≡ phrase_of status }
{
    let Ok(code) = StatusCode::from_u16(status) else {
        return b"";
    };
    match code.canonical_reason() {
        Some(phrase) => phrase.as_bytes(),
        None => b"",
    }
}

fn media_type(kind: Kind) -> &'static [u8]
    ensures { result.now ≡ media_type kind }
{
    match kind {
        Kind::Plain => b"text/plain",
        Kind::Json => b"application/json",
        Kind::Octets => b"application/octet-stream",
        Kind::Html | Kind::OwnPage => b"text/html; charset=utf-8",
    }
}

/// What a browser lets the service's own page do.
const POLICY: &[u8] = b"Cache-Control: no-store\r\n\
    Content-Security-Policy: default-src 'none'; connect-src 'self'; img-src 'self' data:; \
    script-src 'unsafe-inline'; style-src 'unsafe-inline'; base-uri 'none'; form-action 'none'; \
    frame-ancestors 'none'\r\n\
    Referrer-Policy: no-referrer\r\n\
    X-Content-Type-Options: nosniff\r\n";

fn policy_lines(kind: Kind) -> &'static [u8]
    ensures { result.now ≡ policy_lines kind }
{
    match kind {
        Kind::OwnPage => POLICY,
        Kind::Plain | Kind::Json | Kind::Octets | Kind::Html => b"",
    }
}

fn allow_line(allow: Option<Verb>) -> &'static [u8]
    ensures { result.now ≡ allow_line allow }
{
    match allow {
        Some(Verb::Get) => b"Allow: GET\r\n",
        Some(Verb::Post) => b"Allow: POST\r\n",
        Some(Verb::Other) | None => b"",
    }
}

fn close_line(last: bool) -> &'static [u8]
    ensures { result.now ≡ close_line last }
{
    if last { b"Connection: close\r\n" } else { b"" }
}

/// Writes a reply: its head and its body (RFC 9112, section 4). It takes no memory.
///
/// After `WriteFault`, which comes only where the sink failed, the sink has taken a front of the reply.
pub fn write_reply<K: Sink>(sink: &mut K, answered: &Answered) -> Result<(), WriteFault>
    ensures written { OnOk result (Writes (K.told sink.old) (K.told sink.new)
        (reply_text answered.now)) }
    ensures front { OnErr result (WritesFront (K.told sink.old) (K.told sink.new)
        (reply_text answered.now)) }
    ensures cause { OnErr result (WriteFailed (K.told sink.old) (K.told sink.new)) }
{
    let mut status_digits = itoa::Buffer::new();
    let mut length_digits = itoa::Buffer::new();
    let status = status_digits.format(answered.status).as_bytes();
    let length = length_digits
        .format(answered.body.as_slice().len())
        .as_bytes();
    let pieces = pieces_of(answered, status, length);
    write_pieces(sink, &pieces)
}

/// The pieces of a reply's text, in order.
fn pieces_of<'a>(answered: &'a Answered, status: &'a [u8], body_length: &'a [u8]) -> [&'a [u8]; 14]
    ensures { status.now ≡ decimal answered.now.status
        → body_length.now ≡ decimal (length answered.now.body)
        → pieces_text result ≡ reply_text answered.now }
{
    let phrase: &'a [u8] = phrase_of(answered.status);
    let kind: &'a [u8] = media_type(answered.kind);
    let policy: &'a [u8] = policy_lines(answered.kind);
    let allow: &'a [u8] = allow_line(answered.allow);
    let close: &'a [u8] = close_line(answered.last);
    let version: &'a [u8] = b"HTTP/1.1 ";
    let space: &'a [u8] = b" ";
    let content_type: &'a [u8] = b"\r\nContent-Type: ";
    let content_length: &'a [u8] = b"\r\nContent-Length: ";
    let end: &'a [u8] = b"\r\n";
    [
        version,
        status,
        space,
        phrase,
        content_type,
        kind,
        content_length,
        body_length,
        end,
        policy,
        allow,
        close,
        end,
        answered.body.as_slice(),
    ]
}
