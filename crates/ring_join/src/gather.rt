//! The membership state of a node in Gather.
//!
//! Rules: Gather 1 to 6, 9, 10 and 14

ghost use Rattle.std.specs.Prelude.{◌≡◌, ◌↔◌, true, [], IsTrue, IsSome, IfSome};
ghost use Rattle.ring_wire.specs.Base.{IsMember};
ghost use Rattle.ring_join.specs.declared.join_effect.JoinEffect.TheVariants.{Merges};
ghost use Rattle.ring_join.specs.Gathering.{gathering_opening, join_effect, has_same_sets, with_agreement, sets_merged, join_merged, gathering_after_join, silent_given_up, candidates};
ghost use Rattle.ring_join.specs.Gathering.{agreeing, has_consensus, HasConsensus, greatest_known, own_join};
ghost use Rattle.ring_join.specs.Gatherers.{HasSetsOf};

use crate::join_effect::JoinEffect;
use ring_wire::{Ghost, Join, Proc, ProcSet, ghost_of};
use std::alloc::AllocError;
use std::marker::Model;

/// The membership state of a node in Gather.
///
/// It has the processors that the node considers, those among them that it has given up, and those that agree with it
/// on both sets. Contracts see a `Gatherer`, with each counted join.
///
/// Rules: Gather 3
#[derive(Drop)]
pub struct Gather {
    me: Proc,
    floor: u64,
    proc_set: ProcSet,
    fail_set: ProcSet,
    /// The senders of the counted joins. `greatest_counted` is the greatest number of these joins, 0 if there are none.
    join_senders: ProcSet,
    greatest_counted: u64,
    /// The counted joins. Each has exactly the node's sets, and was heard since agreement last fell back to the node.
    counted_joins: Ghost<[Join; 0]>,
}

impl Model for Gather {
    ghost use Rattle.ring_join.specs.Gatherers.{Gatherer, gathering_of, HasJoinCounts};

    ghost Value = { Gatherer };

    ghost view = { λ g. record { me = g.me; floor = g.floor; gathering = gathering_of g.proc_set g.fail_set g.counted_joins.value } };

    ghost invariant = { λ g. HasJoinCounts (gathering_of g.proc_set g.fail_set g.counted_joins.value) g.join_senders g.greatest_counted };
}

impl Gather {
    /// Creates the state of node `me` as it enters Gather, with `proc_set` as the processors to consider.
    ///
    /// None of them is given up, and only the node itself agrees. `floor` is the greatest number of a ring that the
    /// node has taken part in.
    ///
    /// Rules: Gather 1
    pub fn new(me: Proc, floor: u64, proc_set: ProcSet) -> Gather
        ensures { result ≡ record { me = me; floor = floor; gathering = gathering_opening proc_set } }
    {
        Gather {
            me,
            floor,
            proc_set,
            fail_set: ProcSet::new(),
            join_senders: ProcSet::new(),
            greatest_counted: 0,
            counted_joins: ghost_of(&()),
        }
    }

    /// Returns the effect that the join would have on this state. Changes nothing.
    ///
    /// Rules: Gather 4 and 14
    pub fn join_effect(&self, join: &Join) -> JoinEffect
        ensures { result ≡ join_effect self.now.me self.now.gathering join.now }
    {
        if join.sender == self.me || self.fail_set.contains(join.sender) {
            return JoinEffect::Ignored;
        }
        if self.has_same_sets_as(join) {
            return JoinEffect::Agrees;
        }
        if join.proc_set.is_subset(self.proc_set) && join.fail_set.is_subset(self.fail_set) {
            return JoinEffect::Ignored;
        }
        JoinEffect::Merges
    }

    /// Records that the sender of the join agrees, and counts the join's number.
    ///
    /// The join must have exactly the node's `proc_set` and `fail_set`.
    ///
    /// Rules: Gather 3, 4 and 14
    pub fn count_agreement(&mut self, join: &Join)
        requires { has_same_sets self.old.gathering join.now ≡ true }
        ensures { self.new ≡ record self.old { gathering = with_agreement self.old.gathering join.now } }
    {
        let counted_joins = ghost_of(&(&self.counted_joins, join));
        self.counted_joins = counted_joins;
        self.join_senders = ProcSet::singleton(join.sender).union(self.join_senders);
        self.greatest_counted = self.greatest_counted.max(join.number);
    }

    /// Widens the node's sets by those of the join. Agreement falls back to the node itself.
    ///
    /// If the widened sets equal those of the join, its sender agrees, and its number is counted. Whether the join has
    /// this effect isn't checked: see [`join_effect`](Gather::join_effect).
    ///
    /// Rules: Gather 5 and 14
    pub fn merge_join(&mut self, join: &Join)
        ensures { self.new ≡ record self.old { gathering = join_merged self.old.me self.old.gathering join.now } }
    {
        self.merge_sets(join);
        if self.has_same_sets_as(join) {
            self.count_agreement(join);
        }
    }

    /// Applies a join, with the effect that [`join_effect`](Gather::join_effect) returns.
    ///
    /// Returns whether `proc_set` or `fail_set` changed. The ring core calls `join_effect` as it decides, and
    /// [`count_agreement`](Gather::count_agreement) or [`merge_join`](Gather::merge_join) as it acts.
    ///
    /// Rules: Gather 4, 5 and 14
    pub fn hear(&mut self, join: Join) -> bool
        ensures counted_joins { self.new ≡ record self.old { gathering = gathering_after_join (join_effect self.old.me self.old.gathering join) self.old.me self.old.gathering join } }
        ensures join_merged { IsTrue result ↔ (join_effect self.old.me self.old.gathering join ≡ Merges) }
        ensures changed { IsTrue result ↔ ¬ HasSetsOf self.old.gathering self.new.gathering }
    {
        match self.join_effect(&join) {
            JoinEffect::Ignored => false,
            JoinEffect::Agrees => {
                self.count_agreement(&join);
                false
            }
            JoinEffect::Merges => {
                self.merge_join(&join);
                true
            }
        }
    }

    /// Gives up each processor of `proc_set` that doesn't agree, by adding it to `fail_set`.
    ///
    /// Then agreement falls back to the node itself, even if no processor was added.
    ///
    /// Rules: Gather 6 and 14
    pub fn give_up(&mut self)
        ensures { self.new ≡ record self.old { gathering = silent_given_up self.old.me self.old.gathering } }
    {
        let silent = self.candidates().without_members(self.agreeing());
        self.fall_back();
        self.fail_set = self.fail_set.union(silent);
    }

    /// Returns the processors with which the node would form a ring: `proc_set` less `fail_set`.
    ///
    /// In every run the node itself is one of them.
    ///
    /// Rules: Gather 14
    pub fn candidates(&self) -> ProcSet
        ensures { result ≡ candidates self.now.gathering }
    {
        self.proc_set.without_members(self.fail_set)
    }

    /// Returns the [`candidates`](Gather::candidates) if there is consensus, that is if all of them agree, otherwise
    /// `None`.
    ///
    /// Rules: Gather 9 and 14
    pub fn agreed(&self) -> Option<ProcSet>
        ensures members { IfSome result (λ members. members ≡ candidates self.now.gathering) }
        ensures test { IsSome result ↔ (has_consensus self.now.me self.now.gathering ≡ true) }
        ensures consensus { IsSome result ↔ HasConsensus self.now.me self.now.gathering }
    {
        // No effect at run time. The proof sees the invariant of `Gather` only if the body reads a field.
        let _counted = &self.counted_joins;
        let members = self.candidates();
        members.is_subset(self.agreeing()).then_some(members)
    }

    /// Returns the greatest ring number that the node knows: the greatest of its floor and the numbers of the counted
    /// joins.
    ///
    /// A ring that it proposes has the next number.
    ///
    /// Rules: Gather 10 and 14
    pub fn greatest_number(&self) -> u64
        ensures { result ≡ greatest_known self.now.floor self.now.gathering }
    {
        self.floor.max(self.greatest_counted)
    }

    /// Returns the join that the node would send now, with its floor and its present sets.
    ///
    /// Rules: Gather 2 and 14
    pub fn my_join(&self) -> Join
        ensures { result ≡ own_join self.now.me self.now.floor self.now.gathering }
    {
        Join {
            sender: self.me,
            number: self.floor,
            proc_set: self.proc_set,
            fail_set: self.fail_set,
        }
    }
}

impl Clone for Gather {
    ghost is_clone = { λ gather copy. copy ≡ gather };

    fn clone(&self) -> Result<Gather, AllocError> {
        Ok(Gather {
            me: self.me,
            floor: self.floor,
            proc_set: self.proc_set,
            fail_set: self.fail_set,
            join_senders: self.join_senders,
            greatest_counted: self.greatest_counted,
            counted_joins: self.counted_joins.clone()?,
        })
    }
}

impl Gather {
    /// Returns whether the join has exactly the node's own sets.
    fn has_same_sets_as(&self, join: &Join) -> bool
        ensures { result ≡ has_same_sets self.now.gathering join.now }
    {
        join.proc_set == self.proc_set && join.fail_set == self.fail_set
    }

    /// Returns the processors that agree: the node itself, and the senders of counted joins.
    fn agreeing(&self) -> ProcSet
        ensures value { result ≡ agreeing self.now.me self.now.gathering }
        ensures itself { IsMember result self.now.me }
    {
        ProcSet::singleton(self.me).union(self.join_senders)
    }

    /// Lets agreement fall back to the node itself: no join is counted any more.
    fn fall_back(&mut self)
        ensures { self.new ≡ record self.old { gathering = record self.old.gathering { counted_joins = [] } } }
    {
        self.join_senders = ProcSet::new();
        self.greatest_counted = 0;
        self.counted_joins = ghost_of(&());
    }

    /// Widens the sets by those of the join. Agreement falls back.
    ///
    /// If the sender has given up this node, only the sender is added to `fail_set`. Otherwise all processors that the
    /// sender has given up are added.
    fn merge_sets(&mut self, join: &Join)
        ensures { self.new ≡ record self.old { gathering = sets_merged self.old.me self.old.gathering join.now } }
    {
        let failed = if join.fail_set.contains(self.me) {
            ProcSet::singleton(join.sender)
        } else {
            join.fail_set
        };
        self.fall_back();
        self.proc_set = self.proc_set.union(join.proc_set);
        self.fail_set = self.fail_set.union(failed);
    }
}
