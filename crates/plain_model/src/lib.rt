//! What an application may believe of its sessions, over a group of members that share data: that each has a conversation of
//! its own, which is never lost. Definitions, and laws of them; nothing here runs but a group.
#![tactic(auto)]

mod cases;
mod group;
mod laws;

pub use cases::{
    local_answers, losses_of_access, losses_of_commits, losses_of_work, lost_replies,
    no_member_is_left, not_all_ran, nothing_else_runs_again, sets_run_again, units_that_end,
};
pub use group::Group;
pub use laws::{
    commits_are_counted, each_core_is_sound, each_repeat_succeeds, each_unit_is_fair, loss_is_told,
    lost_units_can_run_again, repeats_need_no_data, segments_stay_in_work,
};
