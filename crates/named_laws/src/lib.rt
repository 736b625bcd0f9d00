//! Defines what each protocol has by its name, and says what is true of all of them: laws by cases over the names.
#![tactic(auto)]

mod laws;

pub use laws::{
    closer_analyses_raise_no_bound, figures_are_proved, programs_are_sound,
    programs_are_sound_on_clocks, programs_rise, refusals_are_right,
    rounds_give_refusals_that_hold, schedules_are_unique, words_are_texts,
};
