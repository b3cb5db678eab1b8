//! The parts of a body: each argument is followed by one zero byte.
ghost use Rattle.std.specs.Prelude.{◌≡◌, ◌++◌, ◌∷◌, ◌↔◌, [], ℕ, List, Some, drop, slice_get, option_copied, IfOk, IfErr, OnOk, OnErr, IsErrOf};
ghost use Rattle.tcf_values.specs.Cut.{Lacks};
ghost use Rattle.json_args.specs.Parts.{Parts, IsUnended, OneReading, parts_of};

use crate::fault::ArgFault;
use std::alloc::{AllocError, Global};
use std::marker::Model;
use tcf_values::{Bytes, cut_at};

/// The parts of a body, borrowed. Contracts see the list of them.
#[derive(Debug, Drop)]
pub struct Args<'a> {
    body: &'a [u8],
}

impl<'a> Model for Args<'a> {
    ghost use Rattle.std.specs.Prelude.{ℕ, List};
    ghost use Rattle.json_args.specs.Parts.{Parts, parts_of};

    ghost Value = { List (List ℕ) };

    ghost view = { λ args. parts_of args.body.now };

    ghost invariant = { λ args. Parts (parts_of args.body.now) args.body.now };
}

/// Finds the parts of a body. It takes no memory.
#[tactic(auto, using(crate::proofs::Splits::ended_parts))]
pub fn split(body: &[u8]) -> Result<Args<'_>, ArgFault>
    ensures value { IfOk result (λ args. args ≡ parts_of body.now) }
    ensures parts { IfOk result (λ args. Parts args body.now) }
    ensures unended { IsErrOf result ArgFault.NotEnded ↔ IsUnended body.now }
    ensures refusal { IfErr result (λ fault. fault ≡ ArgFault.NotEnded) }
{
    match body.last() {
        Some(last) if *last != 0 => Err(ArgFault::NotEnded),
        _ => Ok(Args { body }),
    }
}

/// The part at the index.
#[tactic(auto, using(crate::proofs::Splits::first_part, crate::proofs::Splits::next_part, crate::proofs::Splits::parts_rest, crate::proofs::Splits::no_parts))]
fn part_at(body: &[u8], index: usize) -> Option<&[u8]>
    requires { Parts (parts_of body.now) body.now }
    ensures { option_copied result ≡ slice_get (parts_of body.now) index }
{
    let mut rest = body;
    for _step in 0..index {
        rest = cut_at(0, rest)?.1;
    }
    Some(cut_at(0, rest)?.0)
}

impl<'a> Args<'a> {
    /// The part at the index, counted from 0.
    pub fn get(&self, index: usize) -> Option<&'a [u8]>
        ensures { option_copied result ≡ slice_get self.now index }
    {
        part_at(self.body, index)
    }

    /// Takes the first part off. Reading part after part so goes over the body once.
    #[tactic(auto, using(crate::proofs::Splits::first_part, crate::proofs::Splits::behind_first, crate::proofs::Splits::parts_rest, crate::proofs::Splits::no_parts, crate::proofs::Splits::none_at_all))]
    pub fn take_first(&mut self) -> Option<&'a [u8]>
        ensures part { option_copied result ≡ slice_get self.old 0 }
        ensures rest { self.new ≡ drop 1 self.old }
    {
        let (part, rest) = cut_at(0, self.body)?;
        self.body = rest;
        Some(part)
    }
}

/// Puts the part and its zero last.
#[tactic(auto, using(crate::proofs::Splits::one_more))]
pub fn add_part(alloc: Global, part: &[u8], out: &mut Bytes) -> Result<(), AllocError>
    requires { Lacks 0 part.now }
    ensures ok { OnOk result (out.new ≡ out.old ++ (part.now ++ 0 ∷ [])) }
    ensures err { OnErr result (out.new ≡ out.old) }
    ensures parts { OnOk result ((parts : List (List ℕ)) → Parts parts out.old → Parts (parts ++ part.now ∷ []) out.new) }
{
    // Both are put at once, so that want of memory leaves `out` as it was.
    let mut ended = Bytes::from_slice(alloc, part)?;
    ended.push(0)?;
    out.extend(ended.as_slice())
}

/// The law that a body has one reading.
pub fn parts_are_unique()
    ensures { OneReading }
{}
