//! Which numbers were given to channels. Numbers that come in order take no more room than one.
ghost use Rattle.std.specs.Prelude.{◌≡◌, OnOk};
ghost use Rattle.std.specs.List.{list_any};
ghost use Rattle.channel_list.specs.Numbers.{has_number, is_within, is_within_latest, no_numbers, only, with_number};

use std::alloc::{AllocError, Global};
use std::marker::Model;

/// The numbers from the first to the last.
#[derive(Clone, Copy, Debug, PartialEq, Eq)]
pub struct Span {
    pub first: u64,
    pub last: u64,
}

impl Span {
    fn has(self, number: u64) -> bool
        ensures { result ≡ is_within number self }
    {
        self.first <= number && number <= self.last
    }
}

/// A set of numbers.
#[derive(Drop)]
pub struct Numbers {
    earlier: Vec<Span>,
    latest: Option<Span>,
}

impl Model for Numbers {
    ghost use Rattle.channel_list.specs.NumbersValue.{NumbersValue};

    ghost Value = { NumbersValue };

    ghost view = { λ n. record { earlier = n.earlier.items; latest = n.latest } };
}

impl Numbers {
    pub fn new(alloc: Global) -> Self
        ensures { result ≡ no_numbers }
    {
        Numbers {
            earlier: Vec::new(alloc),
            latest: None,
        }
    }

    pub fn has(&self, number: u64) -> bool
        ensures { result ≡ has_number number self.now }
    {
        self.is_latest(number) || is_among(&self.earlier, number)
    }

    fn is_latest(&self, number: u64) -> bool
        ensures { result ≡ is_within_latest number self.now.latest }
    {
        match self.latest {
            Some(span) => span.has(number),
            None => false,
        }
    }

    /// Adds a number that isn't there.
    pub fn add(&mut self, number: u64) -> Result<(), AllocError>
        ensures { OnOk result (self.new ≡ with_number number self.old) }
    {
        match self.latest {
            Some(span) if span.last.checked_add(1) == Some(number) => {
                self.latest = Some(Span {
                    last: number,
                    ..span
                });
            }
            Some(span) => {
                self.earlier.push(span)?;
                self.latest = Some(only(number));
            }
            None => self.latest = Some(only(number)),
        }
        Ok(())
    }
}

fn only(number: u64) -> Span
    ensures { result ≡ only number }
{
    Span {
        first: number,
        last: number,
    }
}

fn is_among(spans: &[Span], number: u64) -> bool
    ensures { result ≡ list_any (is_within number) spans.now }
{
    spans.iter().any(|span| span.has(number))
}
