//! What a session goes by.
use soc_base::Bytes;
use soc_schema::{Products, Tokens};
use soc_throttle::RuleSet;

/// What a session goes by.
#[derive(Drop)]
pub struct Rules {
    /// Which crashes are kept.
    pub rules: RuleSet,
    /// Who may do what.
    pub tokens: Tokens,
    /// The products whose crashes everybody may see.
    pub public: Products,
    /// A session ends before the next message once the messages answered hold so many bytes or more.
    pub session_bytes: u64,
    /// The service's own page, where it has one.
    pub page: Option<Bytes>,
    /// What tells which program answers, where that is told.
    pub version: Option<Bytes>,
}
