//! How a line ends.

/// CR LF: what ends a line of an HTTP head (RFC 9112, 2.2) and of a form (RFC 2046, 4.1.1).
pub const CRLF: [u8; 2] = *b"\r\n";
