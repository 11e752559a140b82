//! A node whose steps return encoded frames.
//!
//! Rules: Nodes that records drive 2 to 4; Refusals 4 and 6

ghost use Rattle.std.specs.Prelude.{◌≡◌, false, if◌then◌else◌, None, Some, OnOk, OnErr, IfOk, IfErr};
ghost use Rattle.ring_base.specs.Group.{IsInGroup};
ghost use Rattle.ring_base.specs.declared.fault.Fault.TheVariants.{Memory, Stopped};
ghost use Rattle.ring_node_spec.specs.NodeLimits.{InputFits};
ghost use Rattle.ring_order_proof.specs.NodeFits.{SendsFit};
ghost use Rattle.ring_node_spec.specs.Nodes.{node_opening, node_stopped, is_stopped};
ghost use Rattle.ring_node_spec.specs.Stepping.{node_step};
ghost use Rattle.ring_node.specs.Restores.{node_restored};
ghost use Rattle.ring_clock.specs.StepOutcomes.{installs};
ghost use Rattle.ring_record_node.specs.NodeOutputs.{sends_text};
ghost use Rattle.ring_record_node.specs.RecordNodes.{IsStepOrRefusal, IsSubmission, IsOpeningRefused};

use crate::encoded::{EncodedStep, encode_sends};
use bytes::BytesMut;
use ring_base::{Fault, Fixed, State};
use ring_node::{Input, Node, Outs};
use ring_object::Object;
use ring_order_proof::limit_laws::node_fits_law;
use ring_payload::Call;
use ring_session::Ticket;
use std::marker::Model;

/// A node within the limits of frames, whose steps give encoded frames. Contracts see a `Node`.
/// Rules: Nodes that records drive 1
#[derive(Drop)]
pub(crate) struct EncodingNode<O: Object> {
    alloc: O::Alloc,
    node: Node<O>,
}

impl<O: Object> Model for EncodingNode<O> {
    ghost use Rattle.ring_order_proof.specs.NodeFits.{NodeFits};
    ghost use Rattle.ring_node_spec.specs.Nodes.{Node as ToldNode};

    ghost Value = { ToldNode O.Alloc };

    ghost view = { λ p. p.node };

    ghost invariant = { λ p. NodeFits p.node };
}

impl<O: Object> EncodingNode<O> {
    /// Creates the node of processor `me` of the group `fixed`, at its opening.
    /// Errors, in this order: `NotMember` unless `me` is 1 to N; `Memory`.
    /// Rules: Nodes that records drive 1
    pub(crate) fn new(alloc: O::Alloc, fixed: Fixed, me: u8) -> Result<EncodingNode<O>, Fault>
        ensures ok { IfOk result (λ encoding_node. encoding_node ≡ node_opening fixed me) }
        ensures member { OnOk result (IsInGroup fixed me) }
        ensures refused { IfErr result (IsOpeningRefused (IsInGroup fixed me)) }
    {
        // A law: no effect at run time. The proof takes from it that a node keeps the limits at its opening.
        node_fits_law::<O>();
        // No effect at run time. The proof reads from this call that a group has at most 16 processors.
        let _count = fixed.count();
        let node = Node::new(alloc, fixed, fixed.proc(me)?)?;
        Ok(EncodingNode { alloc, node })
    }

    /// Makes a step and encodes its frames. `Stopped` in a stopped node, else `Memory`: then the node has stopped, and
    /// the step's outputs are lost.
    pub(crate) fn step(&mut self, input: Input<O::Alloc>) -> Result<EncodedStep<O::Alloc>, Fault>
        requires { InputFits input }
        ensures acts { OnOk result (IsStepOrRefusal O.sequential self.old input None self.new) }
        ensures refused { IfErr result (λ fault. IsStepOrRefusal O.sequential self.old input (Some fault) self.new) }
        ensures sends { IfOk result (λ encoded. encoded.outs.sends.items ≡ (node_step O.sequential self.old input).sends) }
        ensures answers { IfOk result (λ encoded. encoded.outs.answers.items ≡ (node_step O.sequential self.old input).answers) }
        ensures restored { IfOk result (λ encoded. encoded.outs.restored ≡ node_restored self.old (node_step O.sequential self.old input).node) }
        ensures committed { IfOk result (λ encoded. encoded.outs.committed.items ≡ (node_step O.sequential self.old input).committed) }
        ensures records { IfOk result (λ encoded. encoded.records.items ≡ sends_text (node_step O.sequential self.old input).sends) }
        ensures installed { IfOk result (λ encoded. encoded.has_installed ≡ installs self.old.core self.new.core) }
    {
        let ring_before = self.node.ring();
        let outs = self.step_node(input)?;
        let has_installed = ring_before != self.node.ring();
        let mut records = BytesMut::new(self.alloc);
        match encode_sends(self.alloc, outs.sends.as_slice(), &mut records) {
            Ok(()) => Ok(EncodedStep {
                outs,
                records,
                has_installed,
            }),
            Err(fault) => {
                // The step is refused as the encoding of its records was, whatever this returns.
                let _ = self.stop_node();
                Err(fault)
            }
        }
    }

    /// Makes a step of the node. `Stopped` in a stopped node; `Memory`.
    fn step_node(&mut self, input: Input<O::Alloc>) -> Result<Outs<O::Alloc>, Fault>
        requires { InputFits input }
        ensures runs { OnOk result (is_stopped self.old.core.state ≡ false) }
        ensures sends { IfOk result (λ outs. outs.sends.items ≡ (node_step O.sequential self.old input).sends) }
        ensures fit { IfOk result (λ outs. SendsFit outs.sends.items) }
        ensures answers { IfOk result (λ outs. outs.answers.items ≡ (node_step O.sequential self.old input).answers) }
        ensures restored { IfOk result (λ outs. outs.restored ≡ node_restored self.old (node_step O.sequential self.old input).node) }
        ensures committed { IfOk result (λ outs. outs.committed.items ≡ (node_step O.sequential self.old input).committed) }
        ensures ok { OnOk result (self.new ≡ (node_step O.sequential self.old input).node) }
        ensures err { OnErr result (self.new ≡ node_stopped self.old) }
        ensures refused { IfErr result (λ fault. fault ≡ (if is_stopped self.old.core.state then Stopped else Memory)) }
    {
        // A law: no effect at run time. The proof takes from it that a node keeps the limits along a step, and that its
        // frames keep them.
        node_fits_law::<O>();
        let outs = self.node.step(input)?;
        Ok(outs)
    }

    /// Stops the node, and returns the refusal of a step for which memory was refused.
    pub(crate) fn stop_node(&mut self) -> Fault
        ensures stopped { self.new ≡ node_stopped self.old }
        ensures refused { result ≡ (if is_stopped self.old.core.state then Stopped else Memory) }
    {
        // A law: no effect at run time. The proof takes from it that a node that stops keeps the limits.
        node_fits_law::<O>();
        let fault = self.step_fault();
        // A stop takes no memory and gives nothing. A stopped node refuses it, and stays as it is.
        let _ = self.node.step(Input::Stop);
        fault
    }

    /// Returns the refusal of a step for which memory was refused.
    fn step_fault(&self) -> Fault
        ensures { result ≡ (if is_stopped self.now.core.state then Stopped else Memory) }
    {
        match self.node.state() {
            State::Stopped => Fault::Stopped,
            _ => Fault::Memory,
        }
    }

    /// Submits a call.
    pub(crate) fn submit(
        &mut self,
        client: u32,
        number: u64,
        operation: &[u8],
    ) -> Result<Ticket, Fault>
        ensures { IsSubmission O.sequential self.old client number operation.now result self.new }
    {
        // A law: no effect at run time. The proof takes from it that a node keeps the limits where a call is submitted.
        node_fits_law::<O>();
        let call = Call::new(self.alloc, client, number, operation)?;
        self.node.submit(call)
    }

    /// Returns the node.
    pub(crate) fn node(&self) -> &Node<O>
        ensures { result.now ≡ self.now }
    {
        &self.node
    }

    /// Returns the allocator of the node.
    pub(crate) fn alloc(&self) -> O::Alloc {
        self.alloc
    }
}
