//! Counts the Ends and the user messages of a new ring, from which a node decides whether it may install the ring.
//!
//! Rules: Recovery 7 and 11

ghost use Rattle.std.specs.Prelude.{◌≡◌, ℕ, ◌+◌, ◌^◌, ◌<◌, ◌≤◌, ◌++◌, [], ◌∷◌, length};
ghost use Rattle.ring_base.specs.Prefixes.{IsListPrefix};
ghost use Rattle.std.specs.List.{list_all};
ghost use Rattle.ring_base.specs.Processors.{has, elements};
ghost use Rattle.ring_recover.specs.Installing.{in_front, is_ready_by};

use crate::history::{nothing_seen, with_message_last};
use crate::payload_kinds::{is_end, is_user_payload};
use ring_base::{Ghost, ProcSet};
use ring_window::{Message, Window};
use std::alloc::{AllocError, Allocator, Global};
use std::marker::Model;

/// Counts of the Ends and user messages of a new ring up to a node's front, for the decision on its installation.
///
/// Contracts see the counted messages, in ascending order of their numbers.
///
/// Rules: Recovery 7 and 11
#[derive(Drop)]
pub struct EndCounts<A: Allocator + Copy = Global> {
    /// The number of messages counted: those numbered 1 to `upto`.
    upto: u64,
    /// The members whose End has been counted.
    ended: ProcSet,
    /// The number of the last End counted, 0 if there is none.
    last_end: u64,
    /// Whether a user message has been counted.
    has_user: bool,
    history: Ghost<[Message<A>; 0]>,
}

impl<A: Allocator + Copy> Model for EndCounts<A> {
    ghost use Rattle.std.specs.Prelude.{List};
    ghost use Rattle.ring_window.specs.Messages.{Message as OneMessage};
    ghost use Rattle.ring_recover.specs.Ending.{HasEndCounts};

    ghost Value = { List (OneMessage A) };

    ghost view = { λ e. e.history.value };

    ghost invariant = { λ e. HasEndCounts e.history.value e.upto e.ended e.last_end e.has_user };
}

impl<A: Allocator + Copy> EndCounts<A> {
    /// Creates the counts for a new ring of which nothing is held yet: no End and no user message.
    ///
    /// Rules: Recovery 11
    pub fn new() -> EndCounts<A>
        ensures { result ≡ [] }
    {
        EndCounts {
            upto: 0,
            ended: ProcSet::new(),
            last_end: 0,
            has_user: false,
            history: nothing_seen(),
        }
    }

    /// Counts the messages up to the window's front that haven't been counted yet.
    ///
    /// `window` must be the window of the new ring, the same in all calls. Its safe mark must be at most the number of
    /// messages counted so far: call this before the mark rises, since the window drops messages up to the mark.
    ///
    /// Rules: Recovery 7 and 11
    pub fn count_front(&mut self, window: &Window<A>)
        requires front { IsListPrefix self.old (in_front window.now.held window.now.ring) }
        requires mark { window.now.mark ≤ length self.old }
        ensures { self.new ≡ in_front window.now.held window.now.ring }
    {
        for before in self.upto..window.front() {
            if let Some(message) = window.get(before + 1) {
                self.count_message(message);
            }
        }
    }

    fn count_message(&mut self, message: &Message<A>)
        requires { length self.old + 1 < 2 ^ 64 }
        ensures { self.new ≡ self.old ++ message.now ∷ [] }
    {
        self.upto += 1;
        if is_end(&message.payload) {
            self.ended.insert(message.sender);
            self.last_end = self.last_end.max(message.number);
        } else if is_user_payload(&message.payload) {
            self.has_user = true;
        }
        self.history = with_message_last(&self.history, message);
    }

    /// Returns whether the counted messages allow the new ring's installation.
    ///
    /// True if an End of each of `members` has been counted, and either the number of the last End is at most `mark` or
    /// a user message has been counted. `members` must be the members of the new ring, and `mark` its safe mark at this
    /// node. [`Plan::finish`] returns whether the node holds enough of the old ring.
    ///
    /// Rules: Recovery 7 and 11
    pub fn is_ready(&self, members: ProcSet, mark: u64) -> bool
        ensures { result ≡ is_ready_by self.now members mark }
    {
        has_all_members(self.ended, members) && (self.last_end <= mark || self.has_user)
    }
}

impl<A: Allocator + Copy> Clone for EndCounts<A> {
    ghost is_clone = { λ ends copy. copy ≡ ends };

    fn clone(&self) -> Result<EndCounts<A>, AllocError> {
        Ok(EndCounts {
            upto: self.upto,
            ended: self.ended,
            last_end: self.last_end,
            has_user: self.has_user,
            history: self.history.clone()?,
        })
    }
}

fn has_all_members(those: ProcSet, members: ProcSet) -> bool
    ensures { result ≡ list_all (has those) (elements members) }
{
    members.iter().all(|member| those.contains(member))
}
