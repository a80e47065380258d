//! What the lines of a head say of its body and of the connection.
ghost use Rattle.std.specs.Prelude.{◌≡◌, ◌++◌, ◌∷◌, [], List, ℕ, length, map};
ghost use Rattle.std.specs.List.{All};
ghost use Rattle.std.specs.Str.{str_eq_ignore_ascii_case};
ghost use Rattle.httparse.specs.Spans.{IsHeaderWithin, header_bytes};
ghost use Rattle.soc_http.specs.Request.{taken_length, is_post, is_close};
ghost use Rattle.soc_http.specs.inner.Framing.{framing_of, stated_more, stated_by_line};

use crate::head::HeadError;
use crate::verb::Verb;
use httparse::spans::HeaderSpan;
use soc_text::number;

const BODY_LIMIT: u64 = 16_777_216;

/// The most digits of a length, so that it fits 64 bits.
const LENGTH_DIGITS: usize = 19;

/// What the `Content-Length` lines state.
#[derive(Clone, Copy)]
pub(crate) enum Stated {
    Nothing,
    Length(u64),
    /// Several lines, or one that isn't 1 to 19 digits.
    Bad,
}

/// What the lines say.
#[derive(Clone, Copy)]
pub(crate) struct Framing {
    pub stated: Stated,
    /// Whether there is a `Transfer-Encoding` line.
    pub coded: bool,
    /// Whether a `Connection` line says `close`.
    pub close: bool,
}

fn is_same_word(word: &[u8], other: &[u8]) -> bool
    ensures { result ≡ str_eq_ignore_ascii_case word.now other.now }
{
    word.eq_ignore_ascii_case(other)
}

fn stated_more(stated: Stated, value: &[u8]) -> Stated
    ensures { result ≡ stated_more stated value.now }
{
    match stated {
        Stated::Nothing => match number(value, LENGTH_DIGITS) {
            Some(length) => Stated::Length(length),
            None => Stated::Bad,
        },
        Stated::Length(_) | Stated::Bad => Stated::Bad,
    }
}

/// What was stated, and what one more line states.
fn stated_by_line(stated: Stated, name: &[u8], value: &[u8]) -> Stated
    ensures { result ≡ stated_by_line stated (name.now, value.now) }
{
    if is_same_word(name, b"content-length") {
        stated_more(stated, value)
    } else {
        stated
    }
}

fn is_close(name: &[u8], value: &[u8]) -> bool
    ensures { result ≡ is_close (name.now, value.now) }
{
    is_same_word(name, b"connection") && is_same_word(value, b"close")
}

impl Framing {
    fn new() -> Framing
        ensures { result ≡ framing_of [] }
    {
        Framing {
            stated: Stated::Nothing,
            coded: false,
            close: false,
        }
    }

    /// Takes one more line.
    fn add(&mut self, name: &[u8], value: &[u8])
        ensures { (before : List (List ℕ × List ℕ)) → self.old ≡ framing_of before
            → self.new ≡ framing_of (before ++ (name.now, value.now) ∷ []) }
    {
        self.stated = stated_by_line(self.stated, name, value);
        self.coded = self.coded | is_same_word(name, b"transfer-encoding");
        self.close = self.close | is_close(name, value);
    }

    /// What the lines of a block say.
    pub fn of(block: &[u8], headers: &[HeaderSpan]) -> Framing
        requires { All (IsHeaderWithin (length block.now)) headers.now }
        ensures { result ≡ framing_of (map (header_bytes block.now) headers.now) }
    {
        let mut framing = Framing::new();
        for header in headers {
            framing.add(header.name.of(block), header.value.of(block));
        }
        framing
    }

    /// The body's length, or why it isn't taken.
    pub fn length(&self, verb: Verb) -> Result<u64, HeadError>
        ensures { result ≡ taken_length verb self.now.coded self.now.stated }
    {
        match self.stated {
            Stated::Bad => Err(HeadError::BadHead),
            Stated::Nothing if self.coded || is_post(verb) => Err(HeadError::NoLength),
            Stated::Nothing => Ok(0),
            Stated::Length(_) if self.coded => Err(HeadError::NoLength),
            Stated::Length(length) if length > BODY_LIMIT => Err(HeadError::BodyTooLarge),
            Stated::Length(length) => Ok(length),
        }
    }
}

fn is_post(verb: Verb) -> bool
    ensures { result ≡ is_post verb }
{
    matches!(verb, Verb::Post)
}
