//! What always holds of the list.
ghost use Rattle.breakpoints.specs.Rows.{IsOrderly};

use super::Breakpoints;

impl Breakpoints {
    /// What always holds of the breakpoints: at most 256, under IDs that differ. The call does nothing.
    pub fn are_orderly(&self)
        ensures { IsOrderly self.now }
    {
        let _map = &self.map;
    }
}
