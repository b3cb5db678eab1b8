//! Where a breakpoint stands: its address, the processes that it is for, and its instances in them.
ghost use Rattle.std.specs.Prelude.{◌≡◌, ◌==◌, ◌≤◌, ◌<◌, slice_index, IfOk};
ghost use Rattle.breakpoints.specs.Address.{address_in, address_of};
ghost use Rattle.breakpoints.specs.Status.{bad_location, count_at, instance_of, instances_of, is_for, is_named, is_of, place_of, text_names};

use crate::counts::Counts;
use std::alloc::{AllocError, Global};
use std::str;
use tcf_values::{
    BpProps, ContextId, Instance, Instances, Place, Text, Texts, context_id, context_text,
};

/// Addresses of instructions lie below this.
const MEMORY_END: u32 = 65_536;

/// An instruction has so many bytes, and stands at a multiple of them.
const INSTRUCTION_BYTES: u32 = 4;

/// Whether a sign stands first, which the reader of digits would pass over.
fn has_plus(digits: &[u8]) -> bool
    ensures { result ≡ (slice_index digits.now 0 == 43) }
{
    matches!(digits, [b'+', ..])
}

/// The address that digits of a radix say.
#[tactic(auto, using(crate::proofs::Digits::address_read, crate::proofs::Digits::address_gone, crate::proofs::Digits::address_of_no_text))]
fn address_in(radix: u32, digits: &[u8]) -> Option<u32>
    requires lower_bound { 2 ≤ radix }
    requires upper_bound { radix ≤ 36 }
    ensures { result ≡ address_in radix digits.now }
{
    if has_plus(digits) {
        return None;
    }
    let text = str::from_utf8(digits).ok()?;
    let address = u32::from_str_radix(text, radix).ok()?;
    if address < MEMORY_END && address % INSTRUCTION_BYTES == 0 {
        Some(address)
    } else {
        None
    }
}

/// The address that a location says.
pub(crate) fn address_of(location: &[u8]) -> Option<u32>
    ensures { result ≡ address_of location.now }
{
    if location.starts_with(b"0x") || location.starts_with(b"0X") {
        address_in(16, &location[2..])
    } else {
        address_in(10, location)
    }
}

#[tactic(auto, unfolding(crate::specs::Status::bad_location))]
fn bad_location(alloc: Global) -> Result<Text, AllocError>
    ensures { IfOk result (λ text. text ≡ bad_location) }
{
    Text::from_str(alloc, "bad-location")
}

fn place_of(alloc: Global, location: &Option<Text>) -> Result<Place, AllocError>
    ensures { IfOk result (λ place. place ≡ place_of location.now) }
{
    let address = match location {
        Some(location) => address_of(location.as_bytes()),
        None => None,
    };
    match address {
        Some(address) => Ok(Place::Address(address)),
        None => Ok(Place::Error(bad_location(alloc)?)),
    }
}

fn is_of(id: ContextId, number: u32) -> bool
    ensures { result ≡ is_of id number }
{
    match id {
        ContextId::Process(process) | ContextId::Thread(process, _) => process == number,
    }
}

fn text_names(text: &Text, number: u32) -> bool
    ensures { result ≡ text_names text.now number }
{
    match context_id(text.as_bytes()) {
        Some(id) => is_of(id, number),
        None => false,
    }
}

fn is_named(texts: &[Text], number: u32) -> bool
    ensures { result ≡ is_named texts.now number }
{
    texts.iter().any(|text| text_names(text, number))
}

/// Whether a breakpoint with these ContextIds is for the process of this number.
pub(crate) fn is_for(contexts: &Option<Texts>, number: u32) -> bool
    ensures { result ≡ is_for contexts.now number }
{
    let named = match contexts {
        Some(texts) => is_named(texts.as_slice(), number),
        None => true,
    };
    number > 0 && named
}

/// The count of an instance that stands there.
fn count_at(place: &Place, count: u32) -> u32
    ensures { result ≡ count_at place.now count }
{
    match place {
        Place::Address(_) => count,
        Place::Error(_) => 0,
    }
}

/// The instance of a breakpoint in a process.
fn instance_of(
    alloc: Global,
    props: &BpProps,
    counts: &Counts,
    number: u32,
) -> Result<Instance, AllocError>
    requires { 0 < number }
    ensures { IfOk result (λ instance. instance ≡ instance_of props.now counts.now number) }
{
    let place = place_of(alloc, &props.location)?;
    let count = count_at(&place, counts.of_process(number));
    Ok(Instance {
        context: context_text(alloc, ContextId::Process(number))?,
        place,
        count,
    })
}

/// The instances of a breakpoint in the attached processes.
pub(crate) fn instances_of(
    alloc: Global,
    props: &BpProps,
    counts: &Counts,
    attached: &[u32],
) -> Result<Instances, AllocError>
    ensures { IfOk result (λ instances. instances ≡ instances_of props.now counts.now attached.now) }
{
    let mut instances = Instances::new(alloc);
    if !props.enabled {
        return Ok(instances);
    }
    for number in attached {
        if is_for(&props.contexts, *number) {
            instances.push(instance_of(alloc, props, counts, *number)?)?;
        }
    }
    Ok(instances)
}
