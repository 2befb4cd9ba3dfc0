//! Flip-flops that never get a definite value, and the faults that they hide.
//!
//! A set of flip-flops is closed where, as long as its members are unknown, their next states are unknown too, whatever
//! the vectors. So its members, which are unknown after power-up, stay unknown after every list of vectors. `uninit`
//! looks for the greatest such set: at first it holds all flip-flops unknown, and it searches the next state of each
//! member in one frame of the good machine. A member whose next state may be known is removed, and so is one whose
//! search has spent its budget, until one round removes none. Then it searches each output. An output that stays
//! unknown is mute, and a fault whose effect comes to mute outputs alone is hidden: no list detects it.
//!
//! The definitions stand in `specs/`: `ClosedSets` (closed sets, and what they are good for), `Cones` (where the effect
//! of a fault may come to), `HeldWindows` and `HeldSearches` (the window in which a set is held unknown, and its
//! searches), `Rounds` (in which order flip-flops are removed, and why), `Records` (what a run answers, and what that
//! means) and `UninitTexts` (its text); `Exposed`, `HeldStates`, `RoundStates`, `RecordOf` and `Shallow` are of single
//! functions.
//!
//! | File | Holds |
//! |---|---|
//! | work | the whole: `uninit`, and `uninit_of_all` for all faults |
//! | uninit_record | its record |
//! | uninit_text, record_lines | its text |
//! | record | why a flip-flop was removed, and what the search of an output came to |
//! | rounds | the rounds that remove flip-flops |
//! | net_search | the search for a net that isn't unknown |
//! | held_window | the window in which a set is held unknown |
//! | exposed | the nets whose cone has an output that isn't mute |
#![tactic(auto)]

mod exposed;
mod held_window;
mod net_search;
mod record;
mod record_lines;
mod rounds;
mod theorems;
mod uninit_record;
mod uninit_text;
mod work;

pub use record::{Out3, Removed};
pub use theorems::{
    closed_sets_stay_unknown, complete_walks_close_a_set, enough_budget_is_never_spent_on_a_net,
    free_removals_leave_closed_sets, hidden_faults_are_undetected, record_means_what_it_says,
};
pub use uninit_record::UninitRecord;
pub use uninit_text::{write_uninit_body, write_uninit_total};
pub use work::{uninit, uninit_of_all};
