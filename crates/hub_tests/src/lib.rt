//! Tests of a hub between an agent and debuggers.
#![tactic(auto)]

#[cfg(test)]
mod debugger;
#[cfg(test)]
mod joined;
