//! The lives of a desk that follow one another on one disk: what holds of all of them, over any number of stops.
#![tactic(auto)]

mod laws;

pub use laws::{
    acknowledged_stays, actions_are_carried, keeps_changes, kept_reports_stay, opens_life,
    repeats_act_once, rows_are_of_crashes, runs_are_lives, stops_end_lives, withdrawn_stays_hidden,
};
