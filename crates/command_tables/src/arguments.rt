//! The arguments of a command, taken from the left one after another, so that no part is gone over twice.
//!
//! Each method takes the next part, whatever it answers: `Missing` where no part is left, `Syntax` where the part is
//! no JSON text in UTF-8, and `Shape` where it is JSON of another kind, with the index of the argument. A part that is
//! missing is told whatever the memory.
ghost use Rattle.std.specs.Prelude.{◌≡◌, ◌≢◌, ◌<◌, ◌^◌, ◌-◌, slice_get, None, Ok, Err, IfOk, IfErr};
ghost use Rattle.serde_json.specs.View.{view};
ghost use Rattle.json_args.specs.Kinds.{IsWhole, value_of};
ghost use Rattle.command_tables.specs.Canonical.{AreBytes};
ghost use Rattle.command_tables.specs.Arguments.{behind, first_as, part_as, text_part, whole_part, flag_part, texts_part, blob_part};

use json_args::kinds::{bytes_in, flag_of, text_of, texts_of, whole_of};
use json_args::readers::json;
use json_args::{ArgFault, Args};
use json_values::Json;
use serde_json::Value;
use std::alloc::Global;
use std::marker::Model;
use tcf_values::{Bytes, Text, Texts};

/// The arguments that are left. Contracts see their parts, and the index of the first of them, counted from 0.
#[derive(Debug, Drop)]
pub struct Arguments<'a> {
    alloc: Global,
    parts: Args<'a>,
    index: usize,
}

impl<'a> Model for Arguments<'a> {
    ghost use Rattle.command_tables.specs.Arguments.{Left};

    ghost Value = { Left };

    ghost view = { λ arguments. record { parts = arguments.parts; index = arguments.index } };
}

impl<'a> Arguments<'a> {
    /// The arguments in these parts, none of which is taken yet.
    pub fn new(alloc: Global, parts: Args<'a>) -> Self
        ensures { result ≡ record { parts = parts.entry; index = 0 } }
    {
        Arguments {
            alloc,
            parts,
            index: 0,
        }
    }

    /// Takes any JSON value.
    fn value(&mut self) -> Result<Value, ArgFault>
        requires { self.now.index < 2 ^ 64 - 1 }
        ensures ok { IfOk result (λ value. first_as value_of self.old ≡ Ok (view value)) }
        ensures fault { IfErr result (λ fault. fault ≢ ArgFault.NoMemory → first_as value_of self.old ≡ Err fault) }
        ensures missing { slice_get self.old.parts 0 ≡ None → result ≡ Err (ArgFault.Missing self.old.index) }
        ensures rest { self.new ≡ behind self.old }
    {
        let index = self.index;
        self.index += 1;
        match self.parts.take_first() {
            Some(part) => json(self.alloc, part)?.ok_or(ArgFault::Syntax { index }),
            None => Err(ArgFault::Missing { index }),
        }
    }

    /// Takes a string; `null` is the empty text.
    pub fn text(&mut self) -> Result<Text, ArgFault>
        requires { self.now.index < 2 ^ 64 - 1 }
        ensures ok { IfOk result (λ text. first_as text_part self.old ≡ Ok text) }
        ensures fault { IfErr result (λ fault. fault ≢ ArgFault.NoMemory → first_as text_part self.old ≡ Err fault) }
        ensures missing { slice_get self.old.parts 0 ≡ None → result ≡ Err (ArgFault.Missing self.old.index) }
        ensures rest { self.new ≡ behind self.old }
    {
        let index = self.index;
        let found = self.value()?;
        match text_of(&found) {
            Some(text) => Ok(Text::from_str(self.alloc, text)?),
            None => Err(ArgFault::Shape { index }),
        }
    }

    /// Takes a whole number from -2^63 to 2^64 - 1, written without a point or an exponent; `null` is none.
    pub fn whole(&mut self) -> Result<i128, ArgFault>
        requires { self.now.index < 2 ^ 64 - 1 }
        ensures ok { IfOk result (λ number. first_as whole_part self.old ≡ Ok number) }
        ensures range { IfOk result IsWhole }
        ensures fault { IfErr result (λ fault. fault ≢ ArgFault.NoMemory → first_as whole_part self.old ≡ Err fault) }
        ensures missing { slice_get self.old.parts 0 ≡ None → result ≡ Err (ArgFault.Missing self.old.index) }
        ensures rest { self.new ≡ behind self.old }
    {
        let index = self.index;
        let found = self.value()?;
        whole_of(&found).ok_or(ArgFault::Shape { index })
    }

    /// Takes a boolean; `null` is false.
    pub fn flag(&mut self) -> Result<bool, ArgFault>
        requires { self.now.index < 2 ^ 64 - 1 }
        ensures ok { IfOk result (λ flag. first_as flag_part self.old ≡ Ok flag) }
        ensures fault { IfErr result (λ fault. fault ≢ ArgFault.NoMemory → first_as flag_part self.old ≡ Err fault) }
        ensures missing { slice_get self.old.parts 0 ≡ None → result ≡ Err (ArgFault.Missing self.old.index) }
        ensures rest { self.new ≡ behind self.old }
    {
        let index = self.index;
        let found = self.value()?;
        flag_of(&found).ok_or(ArgFault::Shape { index })
    }

    /// Takes an array of strings; `null` is none of them. An item that is `null` is of another kind.
    pub fn texts(&mut self) -> Result<Texts, ArgFault>
        requires { self.now.index < 2 ^ 64 - 1 }
        ensures ok { IfOk result (λ texts. first_as texts_part self.old ≡ Ok texts) }
        ensures fault { IfErr result (λ fault. fault ≢ ArgFault.NoMemory → first_as texts_part self.old ≡ Err fault) }
        ensures missing { slice_get self.old.parts 0 ≡ None → result ≡ Err (ArgFault.Missing self.old.index) }
        ensures rest { self.new ≡ behind self.old }
    {
        let index = self.index;
        let found = self.value()?;
        match texts_of(self.alloc, &found)? {
            Some(texts) => Ok(texts),
            None => Err(ArgFault::Shape { index }),
        }
    }

    /// Takes bytes, decoded from the string in the value; `null` is no bytes. `Base64` comes where the string isn't
    /// padded standard base64.
    #[tactic(auto, using(crate::proofs::Decoded::found_are_bytes))]
    pub fn blob(&mut self) -> Result<Bytes, ArgFault>
        requires { self.now.index < 2 ^ 64 - 1 }
        ensures ok { IfOk result (λ bytes. first_as blob_part self.old ≡ Ok bytes) }
        ensures range { IfOk result AreBytes }
        ensures fault { IfErr result (λ fault. fault ≢ ArgFault.NoMemory → first_as blob_part self.old ≡ Err fault) }
        ensures missing { slice_get self.old.parts 0 ≡ None → result ≡ Err (ArgFault.Missing self.old.index) }
        ensures rest { self.new ≡ behind self.old }
    {
        let index = self.index;
        let found = self.value()?;
        let Some(text) = text_of(&found) else {
            return Err(ArgFault::Shape { index });
        };
        bytes_in(self.alloc, text)?.ok_or(ArgFault::Base64 { index })
    }

    /// Takes a value of a kind that has a canonical form.
    pub fn kind<T: Json>(&mut self) -> Result<T, ArgFault>
        requires { self.now.index < 2 ^ 64 - 1 }
        ensures ok { IfOk result (λ found. first_as (part_as T.json_in) self.old ≡ Ok found) }
        ensures within { IfOk result T.IsWithin }
        ensures fault { IfErr result (λ fault. fault ≢ ArgFault.NoMemory → first_as (part_as T.json_in) self.old ≡ Err fault) }
        ensures missing { slice_get self.old.parts 0 ≡ None → result ≡ Err (ArgFault.Missing self.old.index) }
        ensures rest { self.new ≡ behind self.old }
    {
        let index = self.index;
        let found = self.value()?;
        match T::from_value(self.alloc, &found)? {
            Some(item) => Ok(item),
            None => Err(ArgFault::Shape { index }),
        }
    }
}
