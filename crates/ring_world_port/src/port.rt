//! Ports to the nodes of a world.
//!
//! Rules: Clients 2 and 8

ghost use Rattle.std.specs.Prelude.{◌≡◌, IfOk, IfErr, IfSome, OnOk};
ghost use Rattle.ring_client.specs.Asking.{new_asked, asked_after_submit, asked_after_refusal, asked_after_poll, IsClientVisible, IsSubmittable};
ghost use Rattle.ring_world_port.specs.Answers.{submitted_call_of, HasTold};
ghost use Rattle.ring_world_port.specs.Network.{IsNotAsked};

use crate::network::{Network, WorldTicket};
use ring_base::{Fault, Proc};
use ring_client::{Asked, Port};
use ring_object::Object;
use ring_payload::Call;
use ring_session::Answer;
use std::cell::RefCell;
use std::rc::Rc;

/// A network as the ports to the nodes of its world share it.
///
/// One holder at a time may borrow it.
///
/// Rules: Clients 8
pub type SharedNetwork<O: Object> = Rc<RefCell<Network<O>>, O::Alloc>;

/// A port to a node of a world.
///
/// The ports to its nodes share one network. Each poll that finds no answer makes the network perform a turn. While
/// another holder has the network borrowed, a submit is refused with `NoAnswer`, and a poll finds no answer and
/// performs no turn.
///
/// Rules: Clients 2 and 8
#[derive(Drop)]
pub struct WorldPort<O: Object> {
    network: SharedNetwork<O>,
    node: Proc,
    asked: Asked,
}

impl<O: Object> WorldPort<O> {
    /// Creates the port to `node`, before any submit.
    ///
    /// If the world has no such node, each submit is refused with `NotMember`, or with `NoAnswer` while another holder
    /// has the network borrowed.
    ///
    /// Rules: Clients 2 and 8
    pub fn new(network: SharedNetwork<O>, node: Proc) -> WorldPort<O>
        ensures node { result.node ≡ node }
        ensures asked { result.asked ≡ new_asked }
    {
        WorldPort {
            network,
            node,
            asked: Asked::new(),
        }
    }

    /// Submits the call at the port's node in the network.
    ///
    /// Errors: `NoAnswer` while another holder has the network borrowed. Otherwise those of [`Network::submit`].
    fn submit_unrecorded(&mut self, call: &Call<O::Alloc>) -> Result<WorldTicket, Fault>
        ensures same { self.new ≡ self.old }
        ensures ticket { IfOk result (λ ticket. ticket.call ≡ submitted_call_of self.old.node (asked_after_submit call.now)) }
        ensures fits { OnOk result (IsSubmittable call.now) }
        ensures why { IfErr result (IsNotAsked O.sequential self.old.node call.now) }
    {
        let Ok(mut network) = self.network.try_borrow_mut() else {
            return Err(Fault::NoAnswer);
        };
        network.submit_for_ticket(self.node, call)
    }

    /// Returns the answer to the ticket's call if the world has reported it.
    ///
    /// Otherwise the network performs a turn; if an allocation fails in the turn, that is ignored.
    fn poll_unrecorded(&mut self, ticket: &WorldTicket) -> Option<Answer>
        ensures same { self.new ≡ self.old }
        ensures told { IfSome result IsClientVisible }
        ensures given { IfSome result (HasTold O.Alloc O.sequential ticket.now) }
    {
        let Ok(mut network) = self.network.try_borrow_mut() else {
            return None;
        };
        network.poll_answer(ticket)
    }
}

impl<O: Object> Port for WorldPort<O> {
    type Alloc = O::Alloc;

    type Ticket = WorldTicket;

    ghost asked_of = { λ port. port.asked };

    /// Submits a copy of the call at the port's node, records it in `asked`, and returns the ticket to poll for the
    /// answer.
    ///
    /// Never waits.
    ///
    /// Errors: `NoAnswer` while another holder has the network borrowed. Otherwise those of [`Network::submit`], in its
    /// order: `NotMember`, `OpTooLong`, `NumberGap` and `Memory` with the network unchanged, then `Stopped`,
    /// `PendingFull` or `Memory` of the node. `asked` has the refusal.
    ///
    /// Rules: Clients 2 and 8
    fn submit(&mut self, call: &Call<O::Alloc>) -> Result<WorldTicket, Fault>
        ensures ok { OnOk result (self.new.asked ≡ asked_after_submit call.now) }
        ensures refused { IfErr result (λ fault. self.new.asked ≡ asked_after_refusal fault (asked_after_submit call.now)) }
        ensures fits { OnOk result (IsSubmittable call.now) }
        ensures why { IfErr result (IsNotAsked O.sequential self.old.node call.now) }
        ensures ticket { IfOk result (λ ticket. ticket.call ≡ submitted_call_of self.old.node (asked_after_submit call.now)) }
        ensures node { self.new.node ≡ self.old.node }
    {
        self.asked.note_submit(call);
        let submit = self.submit_unrecorded(call);
        if let Err(fault) = submit {
            self.asked.note_refusal(fault);
        }
        submit
    }

    /// Returns the answer that the port's node gave to the ticket's call in the world's run, or `None` if there is none
    /// yet.
    ///
    /// With an answer the network is unchanged. Without one it has performed a turn, unless another holder has it
    /// borrowed; an error of the turn is ignored. Never waits. That the ticket is one of this network isn't checked.
    ///
    /// Rules: Clients 2 and 8
    fn poll(&mut self, ticket: &WorldTicket) -> Option<Answer>
        ensures asked { self.new.asked ≡ asked_after_poll result self.old.asked }
        ensures told { IfSome result IsClientVisible }
        ensures given { IfSome result (HasTold O.Alloc O.sequential ticket.now) }
        ensures node { self.new.node ≡ self.old.node }
    {
        let answer = self.poll_unrecorded(ticket);
        self.asked.note_poll(answer);
        self.asked.answer
    }

    /// Returns the record of the last submit at the port, with the polls since.
    ///
    /// Does not allocate.
    ///
    /// Rules: Clients 2
    fn asked(&self) -> &Asked {
        &self.asked
    }
}
