//! The images of the target as they are kept: in pages, which all processes of an image share.
ghost use Rattle.std.specs.Prelude.{◌≡◌, true, false, None, Some, IfErr, IfOk, OnOk};
ghost use Rattle.target_contexts.specs.KeptImages.{Begin, IsKept, content_bytes};
ghost use Rattle.target_contexts.specs.Loading.{is_elf};
ghost use Rattle.target_contexts.specs.Starting.{bytes_refusal};

use crate::loading::{is_elf, loaded_pages};
use crate::process::Image;
use crate::targets::StartRefusal;
use elf_image::{ElfFault, read};
use rv32i_core::{Pages, pages};
use std::alloc::{AllocError, Global};
use std::marker::Model;
use tcf_values::{Bytes, Text};

/// How many bytes an image can have that a process is started from, unless it is an ELF file.
const MOST_BYTES: usize = 65_536;

/// The bytes of an image.
#[derive(Drop)]
pub(crate) enum Content {
    /// At most 65,536 of them, cut into pages, and how many they are. Zeros fill the last page up.
    Paged(Pages, usize),
    /// More than a process can be started from, as they were given.
    Long(Bytes),
    /// Those of an ELF file, the pages of the memory that it is loaded with, and the address of its first instruction.
    Loaded(Bytes, Pages, u32),
    /// Those of an ELF file that is refused.
    Bad(Bytes),
}

/// An image as it is kept. Contracts see the image.
#[derive(Drop)]
pub(crate) struct KeptImage {
    pub(crate) name: Text,
    content: Content,
}

impl Model for KeptImage {
    ghost use Rattle.target_contexts.specs.KeptImages.{IsKept, content_bytes};
    ghost use Rattle.target_contexts.specs.declared.process.Image.{Image};

    ghost Value = { Image };

    ghost view = { λ kept. record { name = kept.name; bytes = content_bytes kept.content } };

    ghost invariant = { λ kept. IsKept kept.content };
}

impl KeptImage {
    pub(crate) fn new(alloc: Global, image: Image) -> Result<KeptImage, AllocError>
        ensures { IfOk result (λ kept. kept ≡ image) }
    {
        let Image { name, bytes } = image;
        Ok(KeptImage {
            name,
            content: content_of(alloc, bytes)?,
        })
    }

    /// The pages and the first instruction of a process that is started from it, or why there is none.
    #[tactic(auto, using(crate::proofs::KeptImages::raw_free, crate::proofs::KeptImages::long_refused, crate::proofs::KeptImages::file_free, crate::proofs::KeptImages::bad_refused))]
    pub(crate) fn begin(&self) -> Result<(&Pages, u32), StartRefusal>
        ensures refused { IfErr result (λ refusal. bytes_refusal self.now.bytes ≡ Some refusal) }
        ensures free { OnOk result (bytes_refusal self.now.bytes ≡ None) }
        ensures begins { IfOk result (λ begin. Begin self.now.bytes begin.0.now begin.1) }
    {
        match &self.content {
            Content::Paged(pages, _) => Ok((pages, 0)),
            Content::Long(_) => Err(StartRefusal::Size),
            Content::Loaded(_, pages, entry) => Ok((pages, *entry)),
            Content::Bad(_) => Err(StartRefusal::Bad),
        }
    }
}

fn content_of(alloc: Global, bytes: Bytes) -> Result<Content, AllocError>
    ensures bytes { IfOk result (λ content. content_bytes content ≡ bytes) }
    ensures kept { IfOk result (λ content. IsKept content) }
{
    if is_elf(bytes.as_slice()) {
        file_content(alloc, bytes)
    } else {
        raw_content(alloc, bytes)
    }
}

/// Of bytes that are no ELF file.
#[tactic(auto, using(crate::proofs::KeptImages::filled_front, crate::proofs::KeptImages::raw_kept, crate::proofs::KeptImages::long_kept))]
fn raw_content(alloc: Global, bytes: Bytes) -> Result<Content, AllocError>
    requires { is_elf bytes ≡ false }
    ensures bytes { IfOk result (λ content. content_bytes content ≡ bytes) }
    ensures kept { IfOk result (λ content. IsKept content) }
{
    let count = bytes.len();
    if count > MOST_BYTES {
        return Ok(Content::Long(bytes));
    }
    Ok(Content::Paged(pages(alloc, bytes.as_slice())?, count))
}

/// Of an ELF file.
#[tactic(auto, using(crate::proofs::KeptImages::elf_file, crate::proofs::KeptImages::file_kept, crate::proofs::KeptImages::bad_kept))]
fn file_content(alloc: Global, bytes: Bytes) -> Result<Content, AllocError>
    requires { is_elf bytes ≡ true }
    ensures bytes { IfOk result (λ content. content_bytes content ≡ bytes) }
    ensures kept { IfOk result (λ content. IsKept content) }
{
    match read(alloc, bytes.as_slice()) {
        Ok(program) => {
            let pages = loaded_pages(alloc, &program.parts)?;
            Ok(Content::Loaded(bytes, pages, program.entry))
        }
        Err(ElfFault::NoMemory) => Err(AllocError),
        Err(_) => Ok(Content::Bad(bytes)),
    }
}

/// The images, each as it is kept.
pub(crate) fn kept_images(alloc: Global, images: Vec<Image>) -> Result<Vec<KeptImage>, AllocError>
    ensures { IfOk result (λ kept. kept.items ≡ images.items) }
{
    let mut kept = Vec::with_capacity(alloc, images.len())?;
    for image in images {
        kept.push(KeptImage::new(alloc, image)?)?;
    }
    Ok(kept)
}
