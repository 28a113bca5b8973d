//! Preprocesses a file (N1570 5.1.1.2 phase 4): the tokens of its active lines after macro replacement, its definitions, uses
//! of macros and faults.
#![tactic(auto)]

mod act;
mod aim;
mod branch;
mod define;
mod defined;
mod directive;
mod done;
mod file;
mod include;
mod laws;
mod line;
mod line_number;
mod looked;
mod made;
mod open;
mod reach;
mod replacing;
mod run;
mod section;
mod seen;
mod shelf;
mod start;
mod stray;
mod token;
mod unit;
mod work;

pub use done::{PpAnswer, PpDone, PpNeed, PpStep};
pub use laws::{
    first_needed, groups_change_nothing, one_branch, one_preprocessing, resumed, some_preprocessing,
};
pub use start::PpState;
pub use unit::preprocess;
pub use work::PpWork;
