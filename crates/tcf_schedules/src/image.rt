//! The images of a header.
ghost use Rattle.std.specs.Prelude.{◌≡◌, ◌++◌, ◌∷◌, [], IfOk, OnOk, OnErr, IsTrue, bytes_eq};
ghost use Rattle.std.specs.List.{list_any};
ghost use Rattle.tcf_schedules.specs.Words.{is_name, is_hex_word, bytes_of};
ghost use Rattle.tcf_schedules.specs.Schedule.{image_of};

use crate::schedule::{NamedImage, NamedImages};
use crate::words::dash_word;
use hex::FromHexError;
use std::alloc::{AllocError, Global};
use std::collections::BTreeSet;
use std::marker::Model;
use std::str;
use tcf_values::{Bytes, Text};

/// An image as a line says it: its name, and the digits of its bytes.
#[derive(Drop)]
pub struct ImageSays<'a> {
    pub name: &'a [u8],
    pub digits: &'a [u8],
    ghost named: { IsTrue (is_name name.now) },
    ghost paired: { IsTrue (is_hex_word digits.now) },
}

/// The name as a text.
fn text_of(name: &[u8]) -> &str
    requires { IsTrue (is_name name.now) }
    ensures { result.now ≡ name.now }
{
    match str::from_utf8(name) {
        Ok(text) => text,
        Err(_) => unreachable!(),
    }
}

/// The bytes that the digits say.
fn bytes_from(alloc: Global, digits: &[u8]) -> Result<Bytes, AllocError>
    requires { IsTrue (is_hex_word digits.now) }
    ensures { IfOk result (λ bytes. bytes ≡ bytes_of digits.now) }
{
    if digits == dash_word() {
        return Ok(Bytes::new(alloc));
    }
    match hex::decode(alloc, digits) {
        Ok(bytes) => Ok(Bytes::from_vec(bytes)),
        Err(fault) => match fault {
            FromHexError::OutOfMemory => Err(AllocError),
            _ => unreachable!(),
        },
    }
}

impl ImageSays<'_> {
    /// The image that is said.
    pub fn image(&self, alloc: Global) -> Result<NamedImage, AllocError>
        ensures { IfOk result (λ made. made ≡ image_of self.now.name.now self.now.digits.now) }
    {
        Ok(NamedImage {
            name: Text::from_str(alloc, text_of(self.name))?,
            bytes: bytes_from(alloc, self.digits)?,
        })
    }
}

/// The images so far, in order, and their names, among which one is found without a look at each.
#[derive(Drop)]
pub struct ImageList<'a> {
    images: Vec<NamedImage>,
    names: BTreeSet<&'a [u8]>,
}

impl<'a> Model for ImageList<'a> {
    ghost use Rattle.std.specs.Prelude.{List};
    ghost use Rattle.tcf_schedules.specs.declared.schedule.NamedImage.{NamedImage};
    ghost use Rattle.tcf_schedules.specs.Images.{AreNames};

    ghost Value = { List NamedImage };

    ghost view = { λ l. l.images.items };

    ghost invariant = { λ l. AreNames l.names l.images.items };
}

impl<'a> ImageList<'a> {
    /// No image yet.
    pub fn new(alloc: Global) -> Self
        ensures { result ≡ [] }
    {
        ImageList {
            images: Vec::new(alloc),
            names: BTreeSet::new(alloc),
        }
    }

    /// Whether an image has the name.
    pub fn has(&self, name: &[u8]) -> bool
        ensures { result ≡ list_any (λ (i : NamedImage). bytes_eq i.name name.now) self.now }
    {
        self.names.contains(name)
    }

    /// Puts the image that is said last.
    pub fn push(&mut self, alloc: Global, says: &ImageSays<'a>) -> Result<(), AllocError>
        ensures ok { OnOk result (self.new ≡ self.old ++ image_of says.now.name.now says.now.digits.now ∷ []) }
        ensures err { OnErr result (self.new ≡ self.old) }
    {
        let image = says.image(alloc)?;
        self.images.try_reserve(1)?;
        self.names.insert(says.name)?;
        self.images.push_reserved(image);
        Ok(())
    }

    pub(crate) fn into_images(self) -> NamedImages
        ensures { result ≡ self.entry }
    {
        NamedImages::from_vec(self.images)
    }

    /// The images alone.
    pub fn into_vec(self) -> Vec<NamedImage>
        ensures { result.items ≡ self.entry }
    {
        self.images
    }
}
