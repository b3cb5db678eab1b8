//! The texts that are written and read: the lines of a client's log, and the messages of a stream.
#![tactic(auto)]

pub mod log;
pub mod message;
pub mod reading;
pub mod said;
mod show;

pub use log::{EndWhy, LogLine, RefusedWhy, Showing};
pub use message::show_line;
pub use reading::{lines_are_read_back, read_line};
pub use said::{
    Named, data_are_read_back, data_said, long_number, mark_said, named_said, word_said,
    words_are_read_back,
};
pub use show::{show_named, show_number, show_part, show_word, write_line, write_lines, write_log};
