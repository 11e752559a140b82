//! The window of one ring, with its messages in a fixed circular buffer.
//!
//! Rules: Token and window 1 to 4, 11 and 14

ghost use Rattle.std.specs.Prelude.{◌≡◌, ◌≢◌, ℕ, suc, ◌+◌, ◌-◌, ◌%◌, ◌^◌, ◌<◌, ◌≤◌, true, length, IfOk, IfErr, slice_index_or, slice_set, option_copied};
ghost use Rattle.ring_base.specs.declared.fault.Fault.TheVariants.{Memory};
ghost use Rattle.ring_window.specs.Held.{holds, front_of, highest as highest_of, is_new as is_new_number};
ghost use Rattle.ring_window.specs.Bits.{held_bits as bits_of_held, is_set, IsFirstClear};
ghost use Rattle.ring_window.specs.Windows.{window_opening, takes, window_after_take, window_after_forget, message_above_mark, first_missing};
ghost use Rattle.ring_window.specs.Slots.{place_of, message_in_slot};
ghost use Rattle.ring_base.specs.Numbers.{window_size};

use crate::held_bits::HeldBits;
use crate::held_history::{empty_held_history, with_held_message};
use ring_base::{Fault, Ghost, RingId, WINDOW_SIZE};
use ring_wire::{MAX_REQUESTS, Message, Requests};
use std::alloc::{AllocError, Allocator, Global};
use std::marker::Model;

/// The number of slots for messages, 256: one for each number of the window.
const PLACES: usize = WINDOW_SIZE as usize;

/// The receive window of one ring.
///
/// It takes messages whose number is one of the 256 after the safe mark, and keeps each until the mark reaches its
/// number. Contracts see all messages ever taken, newest first, and the mark.
///
/// Rules: Token and window 1 to 4 and 14
#[derive(Drop)]
pub struct Window<A: Allocator + Copy = Global> {
    ring: RingId,
    mark: u64,
    front: u64,
    highest: u64,
    bits: HeldBits,
    message_slots: Vec<Option<Message<A>>, A>,
    history: Ghost<[Message<A>; 0]>,
}

impl<A: Allocator + Copy> Model for Window<A> {
    ghost use Rattle.ring_window.specs.Windows.{WindowHistory};
    ghost use Rattle.ring_window.specs.Slots.{IsWindow};

    ghost Value = { WindowHistory A };

    ghost view = { λ w. record { ring = w.ring; mark = w.mark; held = w.history.value } };

    ghost invariant = { λ w. IsWindow (record { ring = w.ring; mark = w.mark; held = w.history.value }) w.front w.highest w.bits.words w.message_slots.items };
}

impl<A: Allocator + Copy> Window<A> {
    /// Creates the empty window of `ring`, with safe mark 0 and nothing held.
    ///
    /// It allocates all 256 slots at once, so that no later call except `clone` allocates.
    ///
    /// Errors: `Memory` if an allocation fails.
    ///
    /// Rules: Token and window 14
    pub fn new(alloc: A, ring: RingId) -> Result<Window<A>, Fault>
        ensures ok { IfOk result (λ window. window ≡ window_opening ring) }
        ensures refused { IfErr result (λ fault. fault ≡ Memory) }
    {
        Ok(Window {
            ring,
            mark: 0,
            front: 0,
            highest: 0,
            bits: HeldBits::new(),
            message_slots: empty_slots(alloc)?,
            history: empty_held_history(),
        })
    }

    /// Returns the ring whose messages the window takes.
    ///
    /// Rules: Token and window 14
    pub fn ring(&self) -> RingId
        ensures { result ≡ self.now.ring }
    {
        self.ring
    }

    /// Returns the safe mark, 0 at first.
    ///
    /// The messages up to it have been dropped. Their numbers are still treated as held.
    ///
    /// Rules: Token and window 3, 4 and 14
    pub fn mark(&self) -> u64
        ensures { result ≡ self.now.mark }
    {
        self.mark
    }

    /// Returns the front: the greatest number up to which all numbers are held, 0 if number 1 isn't held.
    ///
    /// This is Totem's `my_aru`.
    ///
    /// Rules: Token and window 2 and 14
    pub fn front(&self) -> u64
        ensures { result ≡ front_of self.now.held self.now.ring }
    {
        self.front
    }

    /// Returns the greatest number that is held, 0 if none is. It is at least the front.
    ///
    /// Rules: Token and window 14
    pub fn highest(&self) -> u64
        ensures { result ≡ highest_of self.now.held self.now.ring }
    {
        self.highest
    }

    /// Returns whether message `number` is held: the window has taken it, even if it has dropped it since.
    ///
    /// So [`get`](Window::get) may return `None` for a number that is held. Number 0 is never held, since numbers start
    /// at 1.
    ///
    /// Rules: Token and window 1 and 14
    pub fn has_taken(&self, number: u64) -> bool
        ensures { result ≡ holds self.now.held self.now.ring number }
    {
        if number <= self.mark {
            return number != 0;
        }
        self.bits.is_set((number - self.mark - 1) as usize)
    }

    /// Returns whether `number` is one of the 256 after the safe mark and isn't held.
    ///
    /// Rules: Token and window 4 and 14
    pub fn is_new(&self, number: u64) -> bool
        ensures { result ≡ is_new_number self.now.held self.now.mark self.now.ring number }
    {
        number > self.mark && number - self.mark <= WINDOW_SIZE && !self.has_taken(number)
    }

    /// Returns whether the message belongs to this ring and its number is new.
    fn would_take(&self, message: &Message<A>) -> bool
        ensures { result ≡ takes self.now message.now }
    {
        message.ring == self.ring && self.is_new(message.number)
    }

    /// Holds the message under its number, and returns true.
    ///
    /// Returns false, and changes nothing, if the message belongs to another ring, or if its number is held already or
    /// outside the window. The sender is not checked. Does not allocate.
    ///
    /// Rules: Token and window 11 and 14
    pub fn take(&mut self, message: Message<A>) -> bool
        ensures answer { result ≡ takes self.old message }
        ensures window { self.new ≡ window_after_take self.old message }
    {
        if !self.would_take(&message) {
            return false;
        }
        let number = message.number;
        self.bits.set((number - self.mark - 1) as usize);
        self.history = with_held_message(&self.history, &message);
        self.highest = self.highest.max(number);
        self.front = front_after_take(&self.bits, self.mark, self.front, number);
        put_into_slot(&mut self.message_slots, message);
        true
    }

    /// Returns message `number` if it is held and its number is above the safe mark, otherwise `None`.
    ///
    /// The numbers up to the mark are held too, but their messages have been dropped.
    ///
    /// Rules: Token and window 14
    pub fn get(&self, number: u64) -> Option<&Message<A>>
        ensures { option_copied result ≡ message_above_mark self.now number }
    {
        if number <= self.mark || number - self.mark > WINDOW_SIZE {
            return None;
        }
        self.message_slots[slot_of(number)].as_ref()
    }

    /// Returns the first 32 numbers of the window, ascending, that are at most `upto` and aren't held.
    ///
    /// If there are fewer, returns all of them. [`missing_into`](Window::missing_into), which the ring core uses,
    /// writes them into an existing list.
    ///
    /// Rules: Token and window 7 and 14
    pub fn missing(&self, upto: u64) -> Requests
        ensures { result ≡ first_missing self.now upto }
    {
        let mut missing = Requests::new();
        self.missing_into(upto, &mut missing);
        missing
    }

    /// Replaces the content of `missing` with the numbers that [`missing`](Window::missing) returns for `upto`.
    ///
    /// Rules: Token and window 7 and 14
    pub fn missing_into(&self, upto: u64, missing: &mut Requests)
        ensures { missing.new ≡ first_missing self.now upto }
    {
        let end = upto.saturating_sub(self.mark).min(WINDOW_SIZE) as usize;
        missing.clear();
        let mut offset = (self.front - self.mark) as usize;
        while offset < end && missing.as_slice().len() < MAX_REQUESTS {
            missing.push(self.mark + 1 + offset as u64);
            offset = self.bits.first_clear(offset + 1);
        }
    }

    /// Raises the safe mark to `upto`, and drops the messages up to it.
    ///
    /// `upto` must be at most the front. Nothing changes if the mark is at least `upto` already. The dropped numbers
    /// are still treated as held. Does not allocate.
    ///
    /// Rules: Token and window 14
    pub fn forget(&mut self, upto: u64)
        requires { upto ≤ front_of self.old.held self.old.ring }
        ensures { self.new ≡ window_after_forget self.old upto }
    {
        if upto <= self.mark {
            return;
        }
        clear_slots(&mut self.message_slots, self.mark, upto);
        self.bits = self.bits.shifted_down((upto - self.mark) as usize);
        self.mark = upto;
    }

    /// Returns, as in a commit entry, which of the 256 numbers after the front are held.
    ///
    /// Bit j, for j from 0 to 255, stands for the number front + 1 + j. It is bit j mod 8, counted from the least
    /// significant, of byte j div 8.
    ///
    /// Rules: Token and window 14
    /// Formats: The commit entry
    pub fn held_bits(&self) -> [u8; 32]
        ensures { result ≡ bits_of_held self.now.held self.now.ring }
    {
        self.bits.bytes_from((self.front - self.mark) as usize)
    }
}

impl<A: Allocator + Copy> Clone for Window<A> {
    ghost is_clone = { λ window copy. copy ≡ window };

    fn clone(&self) -> Result<Window<A>, AllocError> {
        Ok(Window {
            ring: self.ring,
            mark: self.mark,
            front: self.front,
            highest: self.highest,
            bits: self.bits,
            history: self.history.clone()?,
            message_slots: copied_slots(&self.message_slots)?,
        })
    }
}

/// Returns the slot of message `number` in the buffer, 0 to 255. `number` must be at least 1.
fn slot_of(number: u64) -> usize
    requires { 1 ≤ number }
    ensures { result ≡ (number - 1) % window_size }
{
    ((number - 1) % WINDOW_SIZE) as usize
}

/// Returns the front after the bit of `number` was set in `bits`; `front` is the front before.
///
/// `number` must be one of the 256 after `mark`.
fn front_after_take(bits: &HeldBits, mark: u64, front: u64, number: u64) -> u64
    requires above { mark < number }
    requires inside { number ≤ mark + window_size }
    requires fits { (j : ℕ) → is_set bits.now.words j ≡ true → mark + 1 + j < 2 ^ 64 }
    ensures stays { number ≢ suc front → result ≡ front }
    ensures goes { number ≡ suc front → (k : ℕ) × (result ≡ mark + k) × IsFirstClear bits.now.words (number - mark - 1) k }
{
    if number - 1 != front {
        return front;
    }
    mark + bits.first_clear((number - mark - 1) as usize) as u64
}

/// Returns 256 empty slots for a window's messages.
///
/// Errors: `Memory` if an allocation fails.
fn empty_slots<A: Allocator + Copy>(alloc: A) -> Result<Vec<Option<Message<A>>, A>, Fault>
    ensures count { IfOk result (λ places. length places.items ≡ window_size) }
    ensures empty { IfOk result (λ places. (j : ℕ) → slice_index_or places.items j None ≡ None) }
    ensures refused { IfErr result (λ fault. fault ≡ Memory) }
{
    let mut places = Vec::with_capacity(alloc, PLACES)?;
    for _ in 0..PLACES {
        places.push(None)?;
    }
    Ok(places)
}

/// Returns a copy of the slots.
///
/// Errors: `AllocError` if an allocation fails.
fn copied_slots<A: Allocator + Copy>(
    places: &Vec<Option<Message<A>>, A>,
) -> Result<Vec<Option<Message<A>>, A>, AllocError>
    ensures { IfOk result (λ copy. copy.items ≡ places.now.items) }
{
    places.clone()
}

/// Puts a message into its slot.
fn put_into_slot<A: Allocator + Copy>(places: &mut Vec<Option<Message<A>>, A>, message: Message<A>)
    requires count { length places.old.items ≡ window_size }
    requires number { 1 ≤ message.number }
    ensures { places.new.items ≡ slice_set places.old.items (place_of message.number) (Some message) }
{
    let place = slot_of(message.number);
    places[place] = Some(message);
}

/// Empties the slots of the numbers after `mark` up to `upto`, of which there must be at most 256.
fn clear_slots<A: Allocator + Copy>(places: &mut Vec<Option<Message<A>>, A>, mark: u64, upto: u64)
    requires count { length places.old.items ≡ window_size }
    requires order { mark ≤ upto }
    requires inside { upto ≤ mark + window_size }
    ensures count { length places.new.items ≡ window_size }
    ensures cleared { (n : ℕ) → mark < n → n ≤ upto → message_in_slot places.new.items n ≡ None }
    ensures others { (n : ℕ) → upto < n → n ≤ mark + window_size → message_in_slot places.new.items n ≡ message_in_slot places.old.items n }
{
    for before in mark..upto {
        places[(before % WINDOW_SIZE) as usize].take();
    }
}
