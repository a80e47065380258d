//! What the messages of a session are answered by.
use crate::rules::Rules;
use soc_http::Routes;
use std::alloc::Global;

/// What each message of a session is answered by.
#[derive(Drop)]
pub struct Setting<'s, S> {
    pub alloc: Global,
    pub rules: &'s Rules,
    /// Where the literal paths lead.
    pub routes: &'s Routes,
    /// What makes the stacks of crashes.
    pub stacks: &'s S,
}
