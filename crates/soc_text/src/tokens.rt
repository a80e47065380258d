//! Tokens of HTTP and of MIME.
ghost use Rattle.std.specs.Prelude.{◌≡◌};
ghost use Rattle.std.specs.List.{prefix_len};
ghost use Rattle.soc_text.specs.Tokens.{is_token_byte};

/// Whether the byte may stand in a token.
#[tactic(auto, unfolding(crate::specs::Tokens::is_token_byte))]
pub fn is_token_byte(byte: u8) -> bool
    ensures { result ≡ is_token_byte byte }
{
    byte.is_ascii_alphanumeric() || b"!#$%&'*+-.^_`|~".contains(&byte)
}

/// How many bytes of a token the text begins with.
pub fn token_len(text: &[u8]) -> usize
    ensures { result ≡ prefix_len is_token_byte text.now }
{
    let mut count = 0;
    while count < text.len() {
        if !is_token_byte(text[count]) {
            return count;
        }
        count += 1;
    }
    count
}
