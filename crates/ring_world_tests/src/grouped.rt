//! The nodes of one group. Their frames arrive in the order sent, except those that a cut holds back.

use bytes::BytesMut;
use ring_base::{Fault, Fixed, Kind, Proc, ProcSet};
use ring_driver::{Driver, ValidFrame};
use ring_node::Node;
use ring_object::Object;
use ring_things::Counters;
use std::alloc::Allocator;
use std::collections::VecDeque;

/// A frame on its way from one processor to another, as bytes.
#[derive(Drop)]
struct QueuedFrame<A: Allocator> {
    from: Proc,
    to: Proc,
    bytes: BytesMut<A>,
}

/// The log counts of a node's steps: the number of calls newly committed, the number of calls dropped, and the number of
/// places in the last snapshot that a step restored.
pub type Told = (u64, u64, Option<u64>);

/// A node, and the log counts of its steps.
#[derive(Drop)]
struct Member<O: Object> {
    driver: Driver<O>,
    told: Told,
}

/// The nodes of a group, the frames in flight, and the processors that are cut off from the others. `heap` has the memory
/// of everything outside the nodes.
#[derive(Drop)]
pub struct MemberGroup<O: Object> {
    heap: O::Alloc,
    fixed: Fixed,
    members: Vec<Member<O>, O::Alloc>,
    mails: VecDeque<QueuedFrame<O::Alloc>, O::Alloc>,
    apart: ProcSet,
}

/// Returns the index of a node in its group.
fn place_of(number: u8) -> usize {
    usize::from(number).saturating_sub(1)
}

/// A bound on the loops below: no step gives more frames or calls.
const MAX_STEPS: u32 = 10_000;

/// Returns the number of calls that the last step newly committed, or dropped.
fn told_by<O: Object>(driver: &mut Driver<O>, dropped: bool) -> u64 {
    let mut count = 0u64;
    for _ in 0..MAX_STEPS {
        let is_end = if dropped {
            driver.next_dropped().is_none()
        } else {
            driver.next_committed().is_none()
        };
        if is_end {
            return count;
        }
        count = count.saturating_add(1);
    }
    count
}

impl<O: Object> Member<O> {
    /// Adds the last step to the log counts.
    fn follow(&mut self) {
        let (committed, dropped, restored) = self.told;
        self.told = (
            committed.saturating_add(told_by(&mut self.driver, false)),
            dropped.saturating_add(told_by(&mut self.driver, true)),
            self.driver.restored().or(restored),
        );
    }
}

/// Puts the frame in flight to each of its receivers.
fn post_letter<A: Allocator + Copy>(
    heap: A,
    valid_frame: &ValidFrame<A>,
    (from, receivers): (Proc, ProcSet),
    mails: &mut VecDeque<QueuedFrame<A>, A>,
) -> Result<(), Fault> {
    for number in 1..=16 {
        let to = Proc::new(number);
        if receivers.contains(to) {
            let bytes = valid_frame.bytes(heap)?;
            mails.push_back(QueuedFrame { from, to, bytes })?;
        }
    }
    Ok(())
}

/// Puts the frames of the last step in flight to each of their receivers.
fn post<O: Object>(
    heap: O::Alloc,
    driver: &mut Driver<O>,
    from: Proc,
    mails: &mut VecDeque<QueuedFrame<O::Alloc>, O::Alloc>,
) -> Result<(), Fault> {
    for _ in 0..MAX_STEPS {
        let Some((receivers, valid_frame)) = driver.next_send() else {
            return Ok(());
        };
        post_letter(heap, &valid_frame, (from, receivers), mails)?;
    }
    Ok(())
}

/// Adds the nodes of a group at their opening. The last one has its memory in `last`.
fn add_members<O: Object>(
    heap: O::Alloc,
    last: O::Alloc,
    fixed: Fixed,
    members: &mut Vec<Member<O>, O::Alloc>,
) -> Result<(), Fault> {
    for number in 1..=fixed.count() {
        let memory = if number == fixed.count() { last } else { heap };
        let driver = Driver::new(memory, fixed, number)?;
        let told = (0, 0, None);
        members.push(Member { driver, told })?;
    }
    Ok(())
}

impl<O: Object> MemberGroup<O> {
    /// Returns a group of `count` nodes at their opening. The last one has its memory in `last`.
    /// Errors: `NotMember` where `count` isn't 1 to 16, else `Memory`.
    pub fn new(heap: O::Alloc, last: O::Alloc, count: u8) -> Result<MemberGroup<O>, Fault> {
        let fixed = Fixed::new(count)?;
        let mut members = Vec::new(heap);
        add_members(heap, last, fixed, &mut members)?;
        Ok(MemberGroup {
            heap,
            fixed,
            members,
            mails: VecDeque::new(heap),
            apart: ProcSet::new(),
        })
    }

    /// Returns the node of this number, if it is in the group.
    pub fn node(&self, number: u8) -> Option<&Node<O>> {
        Some(self.members.get(place_of(number))?.driver.node())
    }

    /// Returns the log counts of the node of this number, if it is in the group.
    pub fn told(&self, number: u8) -> Option<Told> {
        Some(self.members.get(place_of(number))?.told)
    }

    /// Cuts these processors off from the others from now on.
    pub fn cut(&mut self, apart: ProcSet) {
        self.apart = apart;
    }

    /// Submits client 7's call of this number, `add 0 1`, at a node of the group.
    /// Errors: those of `Driver::submit`.
    pub fn submit(&mut self, number: u8, call: u64) -> Result<(), Fault> {
        let add = Counters::add(0, 1);
        if let Some(member) = self.members.get_mut(place_of(number)) {
            member.driver.submit(7, call, add.as_slice())?;
        }
        Ok(())
    }

    /// Steps a node by a timeout, and puts its frames in flight.
    /// Errors: `NotMember` where the group has no such node, those of `Driver::timeout`, `Memory`.
    pub fn time(&mut self, number: u8, kind: Kind) -> Result<(), Fault> {
        let from = self.fixed.proc(number)?;
        match self.members.get_mut(place_of(number)) {
            Some(member) => {
                member.driver.timeout(kind)?;
                member.follow();
                post(self.heap, &mut member.driver, from, &mut self.mails)
            }
            None => Ok(()),
        }
    }

    /// Delivers the oldest frames in flight, at most `count`. A frame is lost if its sender and its receiver are cut off
    /// from each other.
    /// Errors: those of `Driver::receive`, `Memory`.
    pub fn pump(&mut self, count: u32) -> Result<(), Fault> {
        for _ in 0..count {
            let Some(mail) = self.mails.pop_front() else {
                return Ok(());
            };
            if self.apart.contains(mail.from) == self.apart.contains(mail.to) {
                self.receive(&mail)?;
            }
        }
        Ok(())
    }

    /// Delivers a frame to its receiver.
    fn receive(&mut self, mail: &QueuedFrame<O::Alloc>) -> Result<(), Fault> {
        match self.members.get_mut(place_of(mail.to.number())) {
            Some(member) => {
                let valid_frame = ValidFrame::read(self.heap, mail.bytes.as_slice())?;
                member.driver.receive(valid_frame)?;
                member.follow();
                post(self.heap, &mut member.driver, mail.to, &mut self.mails)
            }
            None => Ok(()),
        }
    }
}
