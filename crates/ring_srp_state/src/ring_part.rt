//! The window and the visits that a processor keeps of one ring.
//!
//! A function marked `inline(never)` keeps the large stack slot of a token or of a list of requests out of its caller.
//!
//! Rules: Rings and states 3; Token and window 7, 8 and 10

ghost use Rattle.std.specs.Prelude.{◌≡◌, ℕ, ◌≤◌, ◌<◌, ◌+◌, List, length, take, Some, IfOk, IfErr};
ghost use Rattle.std.specs.List.Sorted.{IsStrictlyIncreasing};
ghost use Rattle.ring_wire.specs.Payloads.{max_requests};
ghost use Rattle.ring_base.specs.Numbers.{max_number};
ghost use Rattle.ring_base.specs.declared.fault.Fault.TheVariants.{Memory};
ghost use Rattle.ring_payload.specs.declared.content.Payload.{Payload as OnePayload};
ghost use Rattle.ring_wire.specs.declared.frame.Frame.TheVariants.{Token as TokenFrame};
ghost use Rattle.ring_window.specs.Held.{front_of, missing};
ghost use Rattle.ring_window.specs.Windows.{window_opening, window_after_forget};
ghost use Rattle.ring_token.specs.TokenVisits.{visits_in_ring};
ghost use Rattle.ring_token.specs.Visits.{token_after, requests_after};
ghost use Rattle.ring_token.specs.Histories.{without_visits, visit_made, history_with_visit, mark_of, last_aru};
ghost use Rattle.ring_srp_state.specs.Setting.{turn_in};

use crate::send_list::copied_token;
use ring_base::{Fault, Ghost, Proc, ProcSet, RingId};
use ring_core_spec::OutgoingFrame;
use ring_payload::Payload;
use ring_token::{Visit, requests_after};
use ring_window::Window;
use ring_wire::{Frame, Requests, Token};
use std::alloc::{AllocError, Allocator, Global};

/// What a processor keeps of one ring: the messages that it holds, and its visits of the token.
///
/// Rules: Rings and states 3
#[derive(Drop)]
pub struct WindowAndVisits<A: Allocator + Copy = Global> {
    /// The messages held above the safe mark, and which numbers are new.
    pub window: Window<A>,
    /// This processor's visits of the token, and its safe mark in the ring.
    pub visit: Visit<A>,
}

impl<A: Allocator + Copy> WindowAndVisits<A> {
    /// Creates the state for a ring of which processor `me` holds nothing and whose token it hasn't visited.
    ///
    /// Errors: `Memory` if an allocation fails.
    ///
    /// Rules: Rings and states 3
    pub fn new(alloc: A, me: Proc, ring: RingId) -> Result<WindowAndVisits<A>, Fault>
        ensures window { IfOk result (λ part. part.window ≡ window_opening ring) }
        ensures visit { IfOk result (λ part. part.visit ≡ without_visits me ring) }
        ensures refused { IfErr result (λ fault. fault ≡ Memory) }
    {
        let window = Window::new(alloc, ring)?;
        let visit = Visit::new(me, window.ring());
        Ok(WindowAndVisits { window, visit })
    }

    /// Visits the token, replaces `last_sent` by the token to forward, and drops the messages that have become safe.
    ///
    /// `token` must belong to this ring, and its number must be below `MAX`. `count` is the number of new messages; the
    /// token's `seq` plus `count` must be at most `MAX`. The window must hold the new messages already, and the front
    /// must be at least the safe mark and the `aru` forwarded last. `fresh` has the payloads of the new messages, for
    /// contracts.
    ///
    /// The forwarded token is addressed to `to`. It requests the 32 smallest of `remaining_requests`, which must be
    /// strictly ascending, and of the numbers up to `seq` plus `count` that the window lacks. If `last_sent` is a
    /// token, it is overwritten in place. Does not allocate.
    ///
    /// Rules: Token and window 7, 8 and 10
    pub fn forward_token(
        &mut self,
        token: &Token,
        remaining_requests: &Requests,
        count: u64,
        fresh: &Ghost<[Payload<A>; 0]>,
        to: ProcSet,
        last_sent: &mut Option<OutgoingFrame<A>>,
    )
        requires ring { token.now.ring ≡ self.old.visit.ring }
        requires number { token.now.number < max_number }
        requires seq { token.now.seq + count ≤ max_number }
        requires count { length fresh.now.value ≡ count }
        requires remaining_requests { IsStrictlyIncreasing remaining_requests.now }
        requires reached { mark_of self.old.visit ≤ front_of self.old.window.held self.old.window.ring }
        requires led { last_aru (visits_in_ring self.old.visit.ring self.old.visit.turns) ≤ front_of self.old.window.held self.old.window.ring }
        ensures last_sent { last_sent.new ≡ Some (record {
          to = to;
          frame = TokenFrame (turn_in self.old.window self.old.visit token.now remaining_requests.now fresh.now.value).forwarded;
        }) }
        ensures visit { self.new.visit ≡ history_with_visit self.old.visit (turn_in self.old.window self.old.visit token.now remaining_requests.now fresh.now.value) }
        ensures window { self.new.window ≡ window_after_forget self.old.window (mark_of self.new.visit) }
    {
        if let Some(sent) = last_sent {
            if let Frame::Token(kept) = &mut sent.frame {
                self.visit_into_token(token, remaining_requests, count, fresh, kept);
                sent.to = to;
                return;
            }
        }
        self.forward_first_token(token, remaining_requests, count, fresh, to, last_sent);
    }

    /// Does the same if `last_sent` isn't a token.
    #[inline(never)]
    fn forward_first_token(
        &mut self,
        token: &Token,
        remaining_requests: &Requests,
        count: u64,
        fresh: &Ghost<[Payload<A>; 0]>,
        to: ProcSet,
        last_sent: &mut Option<OutgoingFrame<A>>,
    )
        requires ring { token.now.ring ≡ self.old.visit.ring }
        requires number { token.now.number < max_number }
        requires seq { token.now.seq + count ≤ max_number }
        requires count { length fresh.now.value ≡ count }
        requires remaining_requests { IsStrictlyIncreasing remaining_requests.now }
        requires reached { mark_of self.old.visit ≤ front_of self.old.window.held self.old.window.ring }
        requires led { last_aru (visits_in_ring self.old.visit.ring self.old.visit.turns) ≤ front_of self.old.window.held self.old.window.ring }
        ensures last_sent { last_sent.new ≡ Some (record {
          to = to;
          frame = TokenFrame (turn_in self.old.window self.old.visit token.now remaining_requests.now fresh.now.value).forwarded;
        }) }
        ensures visit { self.new.visit ≡ history_with_visit self.old.visit (turn_in self.old.window self.old.visit token.now remaining_requests.now fresh.now.value) }
        ensures window { self.new.window ≡ window_after_forget self.old.window (mark_of self.new.visit) }
    {
        let mut forwarded = copied_token(token);
        self.visit_into_token(token, remaining_requests, count, fresh, &mut forwarded);
        *last_sent = Some(OutgoingFrame {
            to,
            frame: Frame::Token(forwarded),
        });
    }

    /// Visits the token, and writes the one to forward into `forwarded`.
    fn visit_into_token(
        &mut self,
        token: &Token,
        remaining_requests: &Requests,
        count: u64,
        fresh: &Ghost<[Payload<A>; 0]>,
        forwarded: &mut Token,
    )
        requires ring { token.now.ring ≡ self.old.visit.ring }
        requires number { token.now.number < max_number }
        requires seq { token.now.seq + count ≤ max_number }
        requires count { length fresh.now.value ≡ count }
        requires remaining_requests { IsStrictlyIncreasing remaining_requests.now }
        requires reached { mark_of self.old.visit ≤ front_of self.old.window.held self.old.window.ring }
        requires led { last_aru (visits_in_ring self.old.visit.ring self.old.visit.turns) ≤ front_of self.old.window.held self.old.window.ring }
        ensures token { forwarded.new ≡ (turn_in self.old.window self.old.visit token.now remaining_requests.now fresh.now.value).forwarded }
        ensures visit { self.new.visit ≡ history_with_visit self.old.visit (turn_in self.old.window self.old.visit token.now remaining_requests.now fresh.now.value) }
        ensures window { self.new.window ≡ window_after_forget self.old.window (mark_of self.new.visit) }
    {
        self.fill_requests(
            remaining_requests,
            token.seq + count,
            &mut forwarded.requests,
        );
        let front = self.window.front();
        visit_with_payloads(&mut self.visit, token, front, count, fresh, forwarded);
        self.window.forget(self.visit.safe());
    }

    /// Writes the new requests: the 32 smallest of those that remain and of the missing numbers up to `upto`.
    fn fill_requests(&self, remaining_requests: &Requests, upto: u64, requests: &mut Requests)
        requires { IsStrictlyIncreasing remaining_requests.now }
        ensures { requests.new ≡ requests_after remaining_requests.now (missing self.now.window.held self.now.window.ring self.now.window.mark upto) }
    {
        self.window.missing_into(upto, requests);
        if !remaining_requests.as_slice().is_empty() {
            merge_requests(remaining_requests, requests);
        }
    }
}

impl<A: Allocator + Copy> Clone for WindowAndVisits<A> {
    ghost is_clone = { λ part copy. copy ≡ part };

    fn clone(&self) -> Result<WindowAndVisits<A>, AllocError> {
        Ok(WindowAndVisits {
            visit: self.visit.clone()?,
            window: self.window.clone()?,
        })
    }
}

/// Replaces `missing` with the 32 smallest of the remaining requests and of the missing numbers.
///
/// The 32 smallest missing numbers are enough.
#[inline(never)]
fn merge_requests(remaining_requests: &Requests, missing: &mut Requests)
    requires { IsStrictlyIncreasing remaining_requests.now }
    ensures { (lacking : List ℕ) → missing.old ≡ take max_requests lacking → missing.new ≡ requests_after remaining_requests.now lacking }
{
    let both = requests_after(remaining_requests, missing);
    *missing = both;
}

/// Records a visit whose new messages carry the payloads `fresh`.
///
/// The ghost argument of `Visit::visit_into` is chosen from a call's own arguments, so this function takes `fresh` as
/// one of them.
fn visit_with_payloads<A: Allocator + Copy>(
    visit: &mut Visit<A>,
    token: &Token,
    front: u64,
    count: u64,
    fresh: &Ghost<[Payload<A>; 0]>,
    forwarded: &mut Token,
)
    ghost payloads: { List (OnePayload A) }
    requires fresh { payloads ≡ fresh.now.value }
    requires ring { token.now.ring ≡ visit.old.ring }
    requires number { token.now.number < max_number }
    requires seq { token.now.seq + count ≤ max_number }
    requires count { length payloads ≡ count }
    ensures token { forwarded.new ≡ token_after visit.old.me front count forwarded.old.requests token.now }
    ensures visit { visit.new ≡ history_with_visit visit.old (visit_made visit.old.me front payloads forwarded.old.requests token.now) }
{
    let _ = fresh;
    visit.visit_into(token, front, count, forwarded);
}
