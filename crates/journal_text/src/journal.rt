//! A journal as it is read.
use target_contexts::Image;
use target_hub::Input;
use tcf_outside::Sequence;
use tcf_text::LogLine;

pub type Images = Sequence<Image>;

pub type Inputs = Sequence<Input>;

pub type LogLines = Sequence<LogLine>;

/// What was done to a target, and what one client of it logged: the images that the target has, the inputs of its
/// history, and the lines of the log, each in order.
#[derive(Debug, Drop)]
pub struct Journal {
    pub images: Images,
    pub inputs: Inputs,
    pub lines: LogLines,
}
