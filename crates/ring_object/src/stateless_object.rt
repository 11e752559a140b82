//! The object without a state.
//!
//! Rules: Objects 2

use crate::{Object, Reply};
use ring_base::Fault;
use std::alloc::Allocator;
use std::marker::{Model, PhantomData};

/// An object without a state: every operation changes nothing, and its reply is the byte `FF`.
///
/// Its snapshot is empty; `restore` refuses any other bytes with `BadSnapshot`. No call allocates.
///
/// Rules: Objects 2 and 3
#[derive(Drop)]
pub struct StatelessObject<A: Allocator + Copy> {
    alloc_type: PhantomData<A>,
}

impl<A: Allocator + Copy> Model for StatelessObject<A> {
    ghost use Rattle.ring_object.specs.StatelessObject.{Content};

    ghost Value = { Content };

    ghost view = { λ nothing. tt };
}

impl<A: Allocator + Copy + Drop> Object for StatelessObject<A> {
    ghost use Rattle.ring_object.specs.StatelessObject.{is_content, is_readable, stateless_object, ignores, replies, restores};

    type Alloc = A;

    ghost is_content = { is_content };

    ghost is_readable = { is_readable };

    ghost sequential = { stateless_object };

    ghost starts = { tt };

    ghost keeps = { λ content op bytes is. tt };

    ghost replies = { replies };

    ghost ignores = { ignores };

    ghost restores = { restores };

    fn start(_alloc: A) -> Result<StatelessObject<A>, Fault> {
        Ok(StatelessObject {
            alloc_type: PhantomData,
        })
    }

    fn apply(&mut self, _op: &[u8]) -> Result<Reply, Fault> {
        Ok(Reply::from_slice(&[255]))
    }

    fn snapshot(&self, _out: &mut Vec<u8, A>) -> Result<(), Fault> {
        Ok(())
    }

    fn restore(_alloc: A, bytes: &[u8]) -> Result<StatelessObject<A>, Fault> {
        if !bytes.is_empty() {
            return Err(Fault::BadSnapshot);
        }
        Ok(StatelessObject {
            alloc_type: PhantomData,
        })
    }
}
