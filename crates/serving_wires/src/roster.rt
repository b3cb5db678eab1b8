//! What is kept of each connection, in the order of their channels.
ghost use Rattle.std.specs.Prelude.{◌≡◌, ◌==◌, ◌++◌, ◌∷◌, [], None, OnErr, OnOk, length, option_map, position, remove, slice_get};
ghost use Rattle.std.specs.Option.{option_copied_mut};
ghost use Rattle.std.specs.Borrow.{sem};
ghost use Rattle.slab.specs.Slab.{Updates};
ghost use Rattle.serving_wires.specs.Rows.{channel_at, item_at, place_of};

use slab::Slab;
use std::alloc::{AllocError, Global};
use std::marker::Model;

/// Where the item of a channel is stored.
#[derive(Clone, Copy)]
pub struct Place {
    pub channel: u64,
    pub key: usize,
}

/// The items of channels, in the order in which they were pushed. Contracts see a list of rows, each a channel's number
/// with its item.
#[derive(Drop)]
pub struct Roster<T> {
    slots: Slab<T>,
    order: Vec<Place>,
}

impl<T> Model for Roster<T> {
    ghost use Rattle.std.specs.Prelude.{List};
    ghost use Rattle.serving_wires.specs.Row.{Row};
    ghost use Rattle.serving_wires.specs.Slots.{are_kept, rows_of};
    ghost use Rattle.std.specs.Prelude.{IsTrue};

    ghost Value = { List (Row T) };

    ghost view = { λ r. rows_of r.slots r.order.items };

    ghost invariant = { λ r. IsTrue (are_kept r.slots r.order.items) };
}

impl<T> Roster<T> {
    ghost use Rattle.serving_wires.specs.Lending.{LendsItem};

    pub fn new(alloc: Global) -> Self
        ensures { result ≡ [] }
    {
        Roster {
            slots: Slab::new(alloc),
            order: Vec::new(alloc),
        }
    }

    pub fn len(&self) -> usize
        ensures { result ≡ length self.now }
    {
        self.order.as_slice().len()
    }

    /// The place of the channel of this number.
    pub fn place_of(&self, channel: u64) -> Option<usize>
        ensures { result ≡ place_of channel self.now }
    {
        find(&self.order, channel)
    }

    /// The channel whose item is at a place.
    pub fn channel_at(&self, place: usize) -> Option<u64>
        ensures { result ≡ channel_at place self.now }
    {
        channel_of(&self.order, place)
    }

    /// The item at a place.
    pub fn get(&self, place: usize) -> Option<&T>
        ensures { option_map (λ item. item.now) result ≡ item_at place self.now }
    {
        match key_at(&self.order, place) {
            Some(key) => self.slots.get(key),
            None => None,
        }
    }

    /// The item at a place, to be changed.
    pub fn get_mut(&mut self, place: usize) -> Option<&mut T>
        ensures* writes_back { sem 𝓛 (LendsItem T.row self.entry place result) }
        ensures value { option_copied_mut result ≡ item_at place self.old }
    {
        match key_at(&self.order, place) {
            Some(key) => self.slots.get_mut(key),
            None => None,
        }
    }
}

impl<T: Drop> Roster<T> {
    /// Puts the item of this channel last. An item that finds no room is dropped.
    pub fn push(&mut self, channel: u64, item: T) -> Result<(), AllocError>
        ensures ok { OnOk result (self.new ≡ self.old ++ (record { channel = channel; item = item }) ∷ []) }
        ensures err { OnErr result (self.new ≡ self.old) }
    {
        self.order.try_reserve(1)?;
        let key = self.slots.insert(item)?;
        self.order.push(Place { channel, key })?;
        Ok(())
    }

    /// Forgets the item at a place.
    pub fn remove(&mut self, place: usize)
        ensures { self.new ≡ remove self.old place }
    {
        if let Some(key) = key_at(&self.order, place) {
            let _ = self.order.remove(place);
            forget(&mut self.slots, key);
        }
    }
}

/// Forgets what is stored under the key.
fn forget<T: Drop>(slots: &mut Slab<T>, key: usize)
    ensures { Updates slots.old slots.new key None }
{
    let _ = slots.try_remove(key);
}

/// Which of the places is that of the channel.
fn find(order: &[Place], channel: u64) -> Option<usize>
    ensures { result ≡ position (λ place. place.channel == channel) order.now }
{
    order.iter().position(|place| place.channel == channel)
}

/// Whose item is at a place.
fn channel_of(order: &[Place], place: usize) -> Option<u64>
    ensures { result ≡ option_map (λ place. place.channel) (slice_get order.now place) }
{
    Some(order.get(place)?.channel)
}

/// Where the item at a place is stored.
fn key_at(order: &[Place], place: usize) -> Option<usize>
    ensures { result ≡ option_map (λ place. place.key) (slice_get order.now place) }
{
    Some(order.get(place)?.key)
}
