//! Why the program ends, in words for the operator.
use crate::notices::tell;

/// What the line of a refused file begins with.
const REFUSED: &[u8] = b"refused ";

/// The number in the line of a refused file, such as 111 in `refused settings.toml: 111 colour`.
pub(crate) fn refusal_in(bytes: &[u8]) -> Option<u8> {
    if !bytes.starts_with(REFUSED) {
        return None;
    }
    let (_file, why) = str::from_utf8(bytes).ok()?.trim_end().rsplit_once(": ")?;
    why.split(' ').next()?.parse().ok()
}

/// How the program ends: its status, and the number in the last line that it wrote, where that was one of a refused file.
#[derive(Clone, Copy, Debug, PartialEq, Eq)]
pub struct Ending {
    pub status: u8,
    pub refusal: Option<u8>,
}

impl Ending {
    /// An end where no file is refused.
    pub fn of(status: u8) -> Ending {
        Ending {
            status,
            refusal: None,
        }
    }

    /// Tells on standard error why it ends so, and what the number of a refused file means.
    pub fn tell<R: Eprint>(self, rt: &R) {
        if let (3 | 5, Some(number)) = (self.status, self.refusal) {
            let reason = refusal_reason(number);
            tell(rt, format_args!("socorro: {number} means: {reason}"));
        }
        if let Some(reason) = reason_of(self.status) {
            let status = self.status;
            tell(
                rt,
                format_args!("socorro: ends with status {status}: {reason}"),
            );
        }
    }
}

/// Why a file is refused with a number.
fn refusal_reason(number: u8) -> &'static str {
    match number {
        20 => "the rule at this place, counted from 0, isn't one",
        30 => "the file is no journal",
        33 => "the entry at this place can't be there",
        34 => "the record of this crash isn't what was written",
        50 => "this line is no line of a symbol file",
        60 => "this line is no pattern",
        70 => "the token at this place, counted from 0, isn't one",
        72 => "the file is named in symbols.txt and isn't there",
        110 => "the file isn't TOML",
        111 => "this setting is unknown, or its value is of another form",
        _ => "the file is refused",
    }
}

/// Why the program ends with a status, where that isn't plain.
fn reason_of(status: u8) -> Option<&'static str> {
    Some(match status {
        1 => "a message was refused or cut short",
        2 => "these aren't words of a command",
        3 => "a file or a key is refused; its line names it",
        4 => "the journal failed while it was opened, or reports were made or kept",
        5 => "the journal is refused",
        6 => "the input, the address, the clock or the random bytes failed",
        7 => "the output can't be written",
        8 => "a file is there and can't be read",
        9 => "the session had its bytes",
        10 => "an allocation was refused",
        11 => "a pattern is too large to be made ready",
        _ => return None,
    })
}
