//! Texts whose brackets don't count.
ghost use Rattle.std.specs.Prelude.{◌≡◌, map};
ghost use Rattle.soc_frames.specs.Depth.{is_word_byte, ends_in_word, ends_in_operator, front_length, plain_length};

const ANONYMOUS: &[u8] = b"(anonymous namespace)";

const ARROW: &[u8] = b"->";

const OPERATOR: &[u8] = b"operator";

/// What may stand behind the word `operator`, each before its own fronts.
const OPERATORS: [&[u8]; 12] = [
    b"()", b"<=>", b"<<=", b">>=", b"->*", b"->", b"<<", b">>", b"<=", b">=", b"<", b">",
];

fn is_word_byte(byte: u8) -> bool
    ensures { result ≡ is_word_byte byte }
{
    byte.is_ascii_alphanumeric() || byte == b'_'
}

/// Whether the text ends in a letter, a digit or `_`.
fn ends_in_word(text: &[u8]) -> bool
    ensures { result ≡ ends_in_word text.now }
{
    match text.last() {
        Some(byte) => is_word_byte(*byte),
        None => false,
    }
}

/// Whether the text ends in the word `operator`.
fn ends_in_operator(text: &[u8]) -> bool
    ensures { result ≡ ends_in_operator text.now }
{
    text.ends_with(OPERATOR) && !ends_in_word(&text[..text.len() - OPERATOR.len()])
}

/// The length of the first of these fronts that the text begins with, or 0.
fn front_len(text: &[u8], fronts: &[&[u8]]) -> usize
    ensures { result ≡ front_length text.now (map (λ front. front.now) fronts.now) }
{
    for front in fronts {
        if text.starts_with(front) {
            return front.len();
        }
    }
    0
}

/// How many bytes at the front of `rest` are one text whose brackets don't count, with `before` in front of it.
pub fn plain_len(before: &[u8], rest: &[u8]) -> usize
    ensures { result ≡ plain_length before.now rest.now }
{
    if rest.starts_with(ANONYMOUS) {
        ANONYMOUS.len()
    } else if ends_in_operator(before) {
        front_len(rest, &OPERATORS)
    } else if rest.starts_with(ARROW) {
        ARROW.len()
    } else {
        0
    }
}
