//! Tests of what serves sessions: listeners, collectors and crews.
#![tactic(auto)]

#[cfg(test)]
mod collect;
#[cfg(test)]
mod crew;
#[cfg(test)]
mod expect;
#[cfg(test)]
mod listen;
#[cfg(test)]
mod shared;
