//! The target's processes: started from images, found by number, and taken away.
ghost use Rattle.std.specs.Prelude.{[], ◌≡◌, ◌≢◌, ◌<◌, ◌≤◌, ◌^◌, ◌↔◌, ◌++◌, ◌∷◌, if◌then◌else◌, length, All, option_copied, option_map, Some, None, IfErr, IfNone, IfOk, IfSome, IsTrue, IsSome, OnErr, OnOk, OnSome};
ghost use Rattle.std.specs.Borrow.{sem};
ghost use Rattle.target_contexts.specs.Images.{image_of, is_named};
ghost use Rattle.target_contexts.specs.KeptImages.{IsOf};
ghost use Rattle.target_contexts.specs.Kept.{AddsNoOwn, kinds_at, place_in, removed_at, seen_rows};
ghost use Rattle.target_contexts.specs.Live.{IsLive, IsOrderly, numbers_of, place_of, process_of, without};
ghost use Rattle.target_contexts.specs.Contexts.{IsThere, context_of, whole_of};
ghost use Rattle.target_contexts.specs.Changes.{with_change};
ghost use Rattle.target_contexts.specs.Named.{has_running, is_running, is_suspended, running_row, running_rows, running_threads, stood_in, stood_numbers};
ghost use Rattle.target_contexts.specs.Spawning.{added_number, with_begun};
ghost use Rattle.target_contexts.specs.ThreadList.{numbered};
ghost use Rattle.target_contexts.specs.Threads.{count_in, thread_of};

use crate::context::{add_threads, process_data, thread_data};
use crate::image::{KeptImage, kept_images};
use crate::laws::a_process_put_back_changes_nothing;
use crate::process::{Image, Process, new_process};
use crate::threads::{Thread, Threads};
use rv32i_core::Pages;
use std::alloc::{AllocError, AllocFailed, Global};
use std::marker::Model;
use tcf_values::{ContextData, ContextId, Contexts, Text};

/// How many processes can live at once.
const MOST_LIVE: usize = 64;

/// How many bytes the name of an image can have that is found.
const MOST_BYTES: usize = 65_536;

/// Why no process is started. Where several hold, the first of them is answered.
#[derive(Clone, Copy, Debug, PartialEq, Eq)]
pub enum StartRefusal {
    /// There is no image of that name.
    NoImage,
    /// There are 64 live processes.
    Full,
    /// The image has more than 65,536 bytes, and is no ELF file.
    Size,
    /// The image is an ELF file with a fault.
    Bad,
    /// The numbers up to 4,294,967,295 are used.
    Numbers,
    NoMemory,
}

impl From<AllocError> for StartRefusal {
    ghost use Rattle.target_contexts.specs.declared.targets.StartRefusal.TheVariants.{NoMemory};

    ghost from_gives = { λ _ refusal. refusal ≡ NoMemory };

    fn from(_error: AllocError) -> Self {
        StartRefusal::NoMemory
    }
}

impl<T: Drop> From<AllocFailed<T>> for StartRefusal {
    ghost use Rattle.target_contexts.specs.declared.targets.StartRefusal.TheVariants.{NoMemory};

    ghost from_gives = { λ _ refusal. refusal ≡ NoMemory };

    fn from(_failed: AllocFailed<T>) -> Self {
        StartRefusal::NoMemory
    }
}

/// The images and the live processes. Contracts see the list of images, the list of pairs of a number and its
/// process in the order of the numbers, and the next number; and beside these how the pages of each process are kept.
#[derive(Drop)]
pub struct Targets {
    alloc: Global,
    images: Vec<KeptImage>,
    live: Vec<(u32, Process)>,
    next: u64,
}

impl Model for Targets {
    ghost use Rattle.target_contexts.specs.Kept.{kinds_of, seen_rows};
    ghost use Rattle.target_contexts.specs.KeptTargets.{KeptTargets};
    ghost use Rattle.target_contexts.specs.Live.{IsOrderly};

    ghost Value = { KeptTargets };

    ghost view = { λ t. record {
      seen = record { images = t.images.items; processes = seen_rows t.live.items; next = t.next };
      kinds = kinds_of t.live.items;
    } };

    ghost invariant = { λ t. IsOrderly (seen_rows t.live.items) t.next };
}

impl Targets {
    ghost use Rattle.target_contexts.specs.Starting.{new_targets, refusal_of, started};
    ghost use Rattle.target_contexts.specs.Lending.{LendsProcess};

    /// Takes the images, and reads those that are ELF files. Of two with one name the first counts. No process lives,
    /// and the next number is 1.
    pub fn new(alloc: Global, images: Vec<Image>) -> Result<Targets, AllocError>
        ensures seen { IfOk result (λ targets. targets.seen ≡ new_targets images.items) }
        ensures kinds { IfOk result (λ targets. targets.kinds ≡ []) }
    {
        Ok(Targets {
            alloc,
            images: kept_images(alloc, images)?,
            live: Vec::with_capacity(alloc, MOST_LIVE)?,
            next: 1,
        })
    }

    /// Starts a process from the image of this name, and answers its number. From an ELF file it has the memory that the
    /// file is loaded with, and begins at its entry; every other image stands in its memory from the address 0 on, and
    /// it begins there. With `attach` its one thread is suspended, else it runs. No page of its memory is own: it shares
    /// those of the image. A refused call changes nothing; a refusal other than for want of memory is answered whatever
    /// the memory.
    #[tactic(auto, using(crate::proofs::Kept::orderly_added, crate::proofs::Kept::started_by, crate::proofs::Kept::rows_added, crate::proofs::Kept::kinds_added, crate::proofs::Found::next_unused))]
    pub fn add(&mut self, file: &[u8], attach: bool) -> Result<u32, StartRefusal>
        ensures refused { IfSome (refusal_of file.now self.old.seen) (λ refusal. result ≡ Err refusal) }
        ensures due { IfErr result (λ refusal. refusal ≢ StartRefusal.NoMemory → refusal_of file.now self.old.seen ≡ Some refusal) }
        ensures free { IfErr result (λ refusal. refusal ≡ StartRefusal.NoMemory → refusal_of file.now self.old.seen ≡ None) }
        ensures number { IfOk result (λ number. number ≡ self.old.seen.next) }
        ensures unused { IfOk result (λ number. IsLive number self.old.seen.processes → ⊥) }
        ensures started { OnOk result (self.new.seen ≡ started file.now attach self.old.seen) }
        ensures shared { OnOk result (AddsNoOwn self.old.kinds self.new.kinds) }
        ensures kept { OnErr result (self.new ≡ self.old) }
    {
        let (name, image, entry) = self.image_to_start(file)?;
        let process = new_process(self.alloc, name, image, entry, attach)?;
        let number = self.next as u32;
        self.live.push((number, process))?;
        self.next += 1;
        Ok(number)
    }

    /// Takes a live process away. The answer is `false` exactly where there is none of this number, and then nothing
    /// changes. The number isn't used again.
    #[tactic(auto, using(crate::proofs::Found::live_at, crate::proofs::Found::not_live, crate::proofs::Kept::rows_removed, crate::proofs::Kept::kinds_removed, crate::proofs::Kept::orderly_removed))]
    pub fn remove(&mut self, process: u32) -> bool
        ensures found { IsTrue result ↔ IsLive process self.old.seen.processes }
        ensures after { self.new.seen ≡ record self.old.seen { processes = without process self.old.seen.processes } }
        ensures kinds { self.new.kinds ≡ removed_at self.old.kinds (place_of process self.old.seen.processes) }
    {
        match place_of(process, &self.live) {
            Some(place) => {
                let _ = self.live.remove(place);
                true
            }
            None => false,
        }
    }

    /// The live process of this number; `None` exactly where there is none.
    #[tactic(auto, using(crate::proofs::Kept::process_by, crate::proofs::Kept::positive_by, crate::proofs::Found::live_at, crate::proofs::Found::not_live))]
    pub fn process(&self, process: u32) -> Option<&Process>
        ensures value { option_map (λ p. p.now.seen) result ≡ process_of process self.now.seen.processes }
        ensures found { IsSome result ↔ IsLive process self.now.seen.processes }
        ensures positive { OnSome result (0 < process) }
        ensures orderly { IsOrderly self.now.seen.processes self.now.seen.next }
    {
        let row = self.live.get(place_of(process, &self.live)?)?;
        Some(&row.1)
    }

    /// The live process of this number, to be changed; `None` exactly where there is none. What is written changes
    /// this one process, and no number.
    #[tactic(auto, using(crate::proofs::Kept::seen_by, crate::proofs::Kept::kinds_by, crate::proofs::Kept::process_by, crate::proofs::Found::live_at, crate::proofs::Found::not_live))]
    pub fn process_mut(&mut self, process: u32) -> Option<&mut Process>
        ensures* writes_back { sem 𝓛 (LendsProcess self.entry process result) }
        ensures value { option_map (λ p. p.now.seen) result ≡ process_of process self.old.seen.processes }
        ensures kinds { option_map (λ p. p.now.kinds) result ≡ kinds_at process self.old }
        ensures found { IsSome result ↔ IsLive process self.old.seen.processes }
    {
        let place = place_of(process, &self.live)?;
        let row = self.live.get_mut(place)?;
        Some(&mut row.1)
    }

    /// Begins a thread of a live process: it runs from this address on, with the argument in x10 and all other registers 0.
    /// The answer is its number. `None` comes exactly where the process isn't live, has 8 threads, or the address is no
    /// multiple of 4, whatever the memory, and then nothing changes; nor does it after want of memory.
    #[tactic(auto, using(crate::proofs::Kept::kinds_same, crate::proofs::Kept::kept_same))]
    pub fn add_thread(
        &mut self,
        process: u32,
        pc: u32,
        argument: u32,
    ) -> Result<Option<u32>, AllocError>
        ensures number { IfOk result (λ number. number ≡ added_number process pc self.old.seen.processes) }
        ensures none { IfNone (added_number process pc self.old.seen.processes) (result ≡ Ok None) }
        ensures after { OnOk result (self.new.seen ≡ with_change (with_begun pc argument) process self.old.seen) }
        ensures kinds { self.new.kinds ≡ self.old.kinds }
        ensures kept { OnErr result (self.new ≡ self.old) }
    {
        a_process_put_back_changes_nothing();
        match self.process_mut(process) {
            Some(process) => process.begin_thread(pc, argument),
            None => Ok(None),
        }
    }

    /// The thread of this number of a live process; `None` exactly where there is none.
    pub fn thread(&self, process: u32, number: u32) -> Option<&Thread>
        ensures value { option_map (λ t. t.now) result ≡ thread_of process number self.now.seen.processes }
        ensures positive { OnSome result (0 < process) }
        ensures numbered { OnSome result (0 < number) }
    {
        let process = self.process(process)?;
        process.threads.get(number)
    }

    /// How many threads a live process has; 0 where there is none of this number.
    pub fn thread_count(&self, process: u32) -> u32
        ensures count { result ≡ count_in (process_of process self.now.seen.processes) }
        ensures few { result ≤ 8 }
    {
        match self.process(process) {
            Some(process) => process.threads.count(),
            None => 0,
        }
    }

    /// The numbers of the threads of a live process that don't run, in order.
    pub fn suspended_threads(&self, process: u32) -> Result<Vec<u32>, AllocError>
        ensures numbers { IfOk result (λ numbers. numbers.items ≡ stood_numbers (process_of process self.now.seen.processes)) }
        ensures positive { IfOk result (λ numbers. All (λ number. 0 < number) numbers.items) }
    {
        match self.process(process) {
            Some(process) => suspended_in(self.alloc, &process.threads),
            None => Ok(Vec::new(self.alloc)),
        }
    }

    /// The numbers of the live processes, in order.
    pub fn numbers(&self) -> Result<Vec<u32>, AllocError>
        ensures numbers { IfOk result (λ numbers. numbers.items ≡ numbers_of self.now.seen.processes) }
        ensures orderly { IsOrderly self.now.seen.processes self.now.seen.next }
    {
        numbers_in(self.alloc, &self.live)
    }

    /// The threads that run, in the order of their processes and then of their numbers. Each is looked at once.
    #[tactic(auto, using(crate::proofs::Running::running_walked))]
    pub fn running(&self) -> Result<Vec<ContextId>, AllocError>
        ensures { IfOk result (λ threads. threads.items ≡ running_threads self.now.seen.processes) }
    {
        running_in(self.alloc, &self.live)
    }

    /// Whether a thread runs. The look ends at the first one that does.
    pub fn has_running(&self) -> bool
        ensures { result ≡ has_running self.now.seen.processes }
    {
        has_running_in(&self.live)
    }

    /// What always holds of the processes: at most 64 live, under numbers from 1 on that rise strictly and lie below the
    /// next one, which is at most 2^32. The call does nothing.
    pub fn are_orderly(&self)
        ensures { IsOrderly self.now.seen.processes self.now.seen.next }
    {
        let _next = self.next;
    }

    /// What RunControl tells of a live process, or of a thread of one; `None` exactly where there is no such process or
    /// thread, and then whatever the memory.
    pub fn context(&self, id: ContextId) -> Result<Option<ContextData>, AllocError>
        ensures told { IfOk result (λ told. told ≡ context_of id self.now.seen.processes) }
        ensures found { IfOk result (λ told. IsSome told ↔ IsThere id self.now.seen.processes) }
        ensures missing { IfNone (context_of id self.now.seen.processes) (result ≡ Ok None) }
    {
        match id {
            ContextId::Process(number) => match self.process(number) {
                Some(process) => Ok(Some(process_data(self.alloc, number, process)?)),
                None => Ok(None),
            },
            ContextId::Thread(number, n) => match self.process(number) {
                Some(process) if process.threads.has(n) => {
                    Ok(Some(thread_data(self.alloc, number, n, process)?))
                }
                _ => Ok(None),
            },
        }
    }

    /// What RunControl tells of a live process, and of its threads in order.
    pub fn whole_context(&self, number: u32) -> Result<Contexts, AllocError>
        ensures { IfOk result (λ told. told ≡ whole_of number (process_of number self.now.seen.processes)) }
    {
        let mut list = Contexts::new(self.alloc);
        if let Some(process) = self.process(number) {
            list.push(process_data(self.alloc, number, process)?)?;
            add_threads(self.alloc, 0, number, process, &mut list)?;
        }
        Ok(list)
    }

    /// The name, the pages and the first instruction of the image that a start of this name is to start from, where no
    /// refusal is due.
    #[tactic(auto, using(crate::proofs::Kept::as_many))]
    fn image_to_start(&self, file: &[u8]) -> Result<(&Text, &Pages, u32), StartRefusal>
        ensures refused { IfErr result (λ refusal. refusal_of file.now self.now.seen ≡ Some refusal) }
        ensures free { OnOk result (refusal_of file.now self.now.seen ≡ None) }
        ensures image { IfOk result (λ found. IsOf (image_of file.now self.now.seen.images) found.0.now found.1.now found.2) }
        ensures room { OnOk result (length self.now.seen.processes < 64) }
        ensures number { OnOk result (self.now.seen.next < 2 ^ 32) }
    {
        let image = image_of(file, &self.images).ok_or(StartRefusal::NoImage)?;
        if self.live.len() >= MOST_LIVE {
            return Err(StartRefusal::Full);
        }
        let (pages, entry) = image.begin()?;
        if self.next > u64::from(u32::MAX) {
            return Err(StartRefusal::Numbers);
        }
        Ok((&image.name, pages, entry))
    }
}

fn is_named(file: &[u8], image: &KeptImage) -> bool
    ensures { result ≡ is_named file.now image.now }
{
    let name = image.name.as_bytes();
    name.len() <= MOST_BYTES && name == file
}

/// The first image of this name.
fn image_of<'a>(file: &[u8], images: &'a [KeptImage]) -> Option<&'a KeptImage>
    ensures { option_copied result ≡ image_of file.now images.now }
{
    images.iter().find(|image| is_named(file, image))
}

/// Where the process of this number stands among the live ones.
#[tactic(auto, using(crate::proofs::Kept::place_seen, crate::proofs::Kept::within))]
fn place_of(number: u32, live: &[(u32, Process)]) -> Option<usize>
    ensures place { result ≡ place_of number (seen_rows live.now) }
    ensures inside { IfSome result (λ place. place < length live.now) }
{
    place_in(number, live)
}

fn place_in(number: u32, live: &[(u32, Process)]) -> Option<usize>
    ensures { result ≡ place_in number live.now }
{
    live.iter().position(|row| row.0 == number)
}

fn numbers_in(alloc: Global, live: &[(u32, Process)]) -> Result<Vec<u32>, AllocError>
    ensures { IfOk result (λ numbers. numbers.items ≡ numbers_of (seen_rows live.now)) }
{
    let mut numbers = Vec::with_capacity(alloc, live.len())?;
    for row in live {
        numbers.push(row.0)?;
    }
    Ok(numbers)
}

/// The threads that run.
#[tactic(auto, using(crate::proofs::Running::row_more))]
fn running_in(alloc: Global, live: &[(u32, Process)]) -> Result<Vec<ContextId>, AllocError>
    ensures { IfOk result (λ running. running.items ≡ running_rows (seen_rows live.now)) }
{
    let mut running = Vec::new(alloc);
    for row in live {
        add_running(&mut running, row.0, &row.1.threads)?;
    }
    Ok(running)
}

/// Whether a thread of one of the processes runs.
fn has_running_in(live: &[(u32, Process)]) -> bool
    ensures { result ≡ has_running (seen_rows live.now) }
{
    for row in live {
        if row.1.threads.has_running() {
            return true;
        }
    }
    false
}

/// Puts those threads of a process last that run.
#[tactic(auto, using(crate::proofs::Running::thread_walked))]
fn add_running(
    running: &mut Vec<ContextId>,
    number: u32,
    threads: &Threads,
) -> Result<(), AllocError>
    ensures { OnOk result (running.new.items ≡ running.old.items ++ running_row number threads.now) }
{
    for place in 0..threads.count() {
        add_if_running(running, number, place + 1, threads)?;
    }
    Ok(())
}

/// Puts the thread of this number last, where it runs.
fn add_if_running(
    running: &mut Vec<ContextId>,
    number: u32,
    n: u32,
    threads: &Threads,
) -> Result<(), AllocError>
    ensures { OnOk result (running.new.items
        ≡ running.old.items ++ (if is_running (numbered n threads.now) then ContextId.Thread number n ∷ [] else [])) }
{
    if threads.is_running(n) {
        running.push(ContextId::Thread(number, n))?;
    }
    Ok(())
}

/// The numbers of those threads that don't run.
#[tactic(auto, using(crate::proofs::Running::stood_walked))]
fn suspended_in(alloc: Global, threads: &Threads) -> Result<Vec<u32>, AllocError>
    ensures numbers { IfOk result (λ numbers. numbers.items ≡ stood_in threads.now) }
    ensures positive { IfOk result (λ numbers. All (λ number. 0 < number) numbers.items) }
{
    let mut numbers = Vec::new(alloc);
    for place in 0..threads.count() {
        add_if_suspended(&mut numbers, place + 1, threads)?;
    }
    Ok(numbers)
}

/// Puts the number of a thread last, where it doesn't run.
fn add_if_suspended(numbers: &mut Vec<u32>, n: u32, threads: &Threads) -> Result<(), AllocError>
    requires positive { All (λ number. 0 < number) numbers.old.items }
    requires number { 0 < n }
    ensures numbers { OnOk result (numbers.new.items ≡ numbers.old.items ++ (if is_suspended (numbered n threads.now) then n ∷ [] else [])) }
    ensures positive { OnOk result (All (λ number. 0 < number) numbers.new.items) }
{
    match threads.get(n) {
        Some(thread) if !thread.state.runs() => {
            numbers.push(n)?;
            Ok(())
        }
        _ => Ok(()),
    }
}
