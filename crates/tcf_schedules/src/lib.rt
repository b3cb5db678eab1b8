//! Schedules: the images, the chains and the steps that a world is to play, read from a file of lines. Scripts: what
//! one client is to do, read in the same way.
#![tactic(auto)]

mod image;
pub mod laws;
mod line;
mod place;
mod reading;
pub mod schedule;
pub mod script;
mod words;

pub use image::{ImageList, ImageSays};
pub use line::image_in;
pub use place::chain_at;
pub use reading::{cut_line, is_blank_or_comment, read_schedule};
pub use schedule::{
    ChainHead, ChainHeads, NamedImage, NamedImages, Schedule, ScheduleStep, ScheduleSteps,
    TextFault, TextRefusal,
};
pub use script::{Script, ScriptLine, read_script};
pub use words::{image_word, thread_id};
