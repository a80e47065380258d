//! What a desk is asked and answers: commands, replies, the log that they change, and what each caller sees of it.
#![tactic(auto)]

mod desk;
mod keeping;
mod laws;

pub use desk::{Command, Counts, Desk, Limits, Receipt, Refusal, Reply};
pub use keeping::KeepingDesk;
pub use laws::{
    acknowledges, batches_are_runs, changes_last, digests_decide, drains_all, due_by_history,
    hides_crashes, hides_fields, keeps_views, reads_show_the_view, steps_grow,
};
