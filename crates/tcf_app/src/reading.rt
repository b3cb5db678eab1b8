//! The files that an order names are read from the left, each whole.
ghost use Rattle.std.specs.Prelude.{◌≡◌, ◌∷◌, [], IfOk, IfErr, OnOk, OnErr};
ghost use Rattle.tcf_app.specs.Words.{image_in, images_given, files_in};
ghost use Rattle.tcf_app.specs.Heard.{whole, Hears, HearsPart, AreNoted, ReadsInOrder};
ghost use Rattle.tcf_app.specs.Reading.{IsWholly, IsUnread, CountsUnread, NotesFailed, HasRoom};
ghost use Rattle.tcf_app.specs.Ending.{images_with, contents_of};

use crate::order::image_in;
use agent_serving::Image;
use std::alloc::{AllocError, AllocFailed, Global};
use tcf_outside::{FileRead, Files, Octets, ReadRefusal};
use tcf_values::Text;

/// The most bytes of a file.
const FILE_LIMIT: usize = 16_777_216;

/// Why not all files were read whole.
#[derive(Clone, Copy)]
pub(crate) enum Unread {
    /// So many were, and the next one has more bytes than the limit.
    Longer(usize),
    /// So many were, and the read of the next one failed.
    Failed(usize),
    NoMemory,
}

impl From<AllocError> for Unread {
    ghost use Rattle.tcf_app.specs.declared.reading.Unread.TheVariants.{NoMemory};

    ghost from_gives = { λ _ unread. unread ≡ NoMemory };

    fn from(_error: AllocError) -> Self {
        Unread::NoMemory
    }
}

impl<T: Drop> From<AllocFailed<T>> for Unread {
    ghost use Rattle.tcf_app.specs.declared.reading.Unread.TheVariants.{NoMemory};

    ghost from_gives = { λ _ unread. unread ≡ NoMemory };

    fn from(_failed: AllocFailed<T>) -> Self {
        Unread::NoMemory
    }
}

/// Reads the file of this name, behind so many others.
fn read_next<F: Files>(files: &mut F, name: &str, before: usize) -> Result<Octets, Unread>
    ensures whole { IfOk result (IsWholly name.now (F.seen files.old).held) }
    ensures calm { OnOk result ((F.seen files.new).faults ≡ (F.seen files.old).faults) }
    ensures noted { OnOk result (AreNoted (name.now ∷ []) (F.seen files.old) (F.seen files.new)) }
    ensures part { IfErr result (IsUnread name.now before (F.seen files.old).held) }
    ensures counts { IfErr result (CountsUnread (F.seen files.old).faults (F.seen files.new).faults) }
    ensures part_noted { OnErr result (ReadsInOrder (name.now ∷ []) (F.seen files.old) (F.seen files.new)) }
    ensures failed_noted { IfErr result (NotesFailed (name.now ∷ []) (F.seen files.old) (F.seen files.new)) }
    ensures kept { (F.seen files.new).held ≡ (F.seen files.old).held }
{
    match files.read(name, FILE_LIMIT) {
        Ok(FileRead::Whole(bytes)) => Ok(bytes),
        Ok(FileRead::Longer) => Err(Unread::Longer(before)),
        Err(ReadRefusal::Failed) => Err(Unread::Failed(before)),
        Err(ReadRefusal::NoMemory) => Err(Unread::NoMemory),
    }
}

/// Reads the one file of this name.
pub(crate) fn read_file<F: Files>(files: &mut F, name: &str) -> Result<Octets, Unread>
    ensures whole { IfOk result (λ bytes. Hears (name.now ∷ []) (F.seen files.old) (F.seen files.new)
        (whole (bytes ∷ []))) }
    ensures part { IfErr result (HearsPart (name.now ∷ []) (F.seen files.old) (F.seen files.new)) }
    ensures room { IfErr result HasRoom }
    ensures reads { ReadsInOrder (name.now ∷ []) (F.seen files.old) (F.seen files.new) }
{
    read_next(files, name, 0)
}

/// Reads the file of the image that the word gives, behind so many others.
fn read_image<F: Files>(
    alloc: Global,
    word: &str,
    before: usize,
    files: &mut F,
) -> Result<Image, Unread>
    ensures named { IfOk result (λ image. image.name ≡ (image_in word.now).name) }
    ensures whole { IfOk result (λ image. IsWholly (image_in word.now).file (F.seen files.old).held image.bytes) }
    ensures calm { OnOk result ((F.seen files.new).faults ≡ (F.seen files.old).faults) }
    ensures noted { OnOk result (AreNoted ((image_in word.now).file ∷ []) (F.seen files.old) (F.seen files.new)) }
    ensures part { IfErr result (IsUnread (image_in word.now).file before (F.seen files.old).held) }
    ensures counts { IfErr result (CountsUnread (F.seen files.old).faults (F.seen files.new).faults) }
    ensures part_noted { OnErr result (ReadsInOrder ((image_in word.now).file ∷ [])
        (F.seen files.old) (F.seen files.new)) }
    ensures failed_noted { IfErr result (NotesFailed ((image_in word.now).file ∷ [])
        (F.seen files.old) (F.seen files.new)) }
    ensures kept { (F.seen files.new).held ≡ (F.seen files.old).held }
{
    let word = image_in(word);
    let bytes = read_next(files, word.file, before)?;
    let name = Text::from_str(alloc, word.name)?;
    Ok(Image { name, bytes })
}

/// Reads the files of the images that these words give.
pub(crate) fn read_images<F: Files>(
    alloc: Global,
    words: &[String],
    files: &mut F,
) -> Result<Vec<Image>, Unread>
    ensures named { IfOk result (λ images. images.items
        ≡ images_with (images_given words.now) (contents_of images.items)) }
    ensures whole { IfOk result (λ images. Hears (files_in (images_given words.now))
        (F.seen files.old) (F.seen files.new) (whole (contents_of images.items))) }
    ensures part { IfErr result (HearsPart (files_in (images_given words.now))
        (F.seen files.old) (F.seen files.new)) }
    ensures room { IfErr result HasRoom }
    ensures reads { ReadsInOrder (files_in (images_given words.now)) (F.seen files.old) (F.seen files.new) }
{
    let mut images = Vec::new(alloc);
    for word in words {
        let image = read_image(alloc, word.as_str(), images.len(), files)?;
        images.push(image)?;
    }
    Ok(images)
}
