//! The tokens of a file.
ghost use Rattle.std.specs.Prelude.{◌≡◌, IfOk, IfErr, Ok};
ghost use Rattle.soc_replay.specs.TokenText.{IsTokenRefusal, tokens_said};

use crate::documents::document;
use soc_base::NoMemory;
use soc_schema::{TokenError, Tokens};
use std::alloc::Global;
use thiserror::Error;
use toml::Value;

/// Why the bytes of a file say no tokens.
#[derive(Clone, Copy, Debug, PartialEq, Eq, Error)]
pub enum TokensError {
    /// The bytes aren't UTF-8, or their text is no TOML.
    #[error("no TOML")]
    NotToml,
    /// The first bad token has this index, from 0. It is 0 where the file has another key than `token`, or no array
    /// there.
    #[error("bad token {index}")]
    BadToken {
        /// The token's index, from 0.
        index: u32,
    },
    /// An allocation was refused.
    #[error("out of memory")]
    NoMemory,
}

impl From<NoMemory> for TokensError {
    ghost use Rattle.std.specs.Prelude.{◌≡◌};
    ghost use Rattle.soc_replay.specs.declared.token_text.TokensError.TheVariants.{NoMemory as Lacking};

    ghost from_gives = { λ _ error. error ≡ Lacking };

    fn from(_error: NoMemory) -> TokensError {
        TokensError::NoMemory
    }
}

/// The tokens that the bytes of a file say. Empty bytes say none.
#[tactic(auto, unfolding(crate::specs::TokenText::tokens_said))]
pub fn read_tokens(alloc: Global, bytes: &[u8]) -> Result<Tokens, TokensError>
    ensures ok { IfOk result (λ tokens. tokens_said bytes.now ≡ Ok tokens) }
    ensures refused { IfErr result (IsTokenRefusal (tokens_said bytes.now)) }
{
    let Some(table) = document(alloc, bytes)? else {
        return Err(TokensError::NotToml);
    };
    match Tokens::read(alloc, &Value::Table(table)) {
        Ok(tokens) => Ok(tokens),
        Err(TokenError::BadToken { index }) => Err(TokensError::BadToken { index }),
        Err(TokenError::NoMemory) => Err(TokensError::NoMemory),
    }
}
