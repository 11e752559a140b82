//! The stage of the newest ring's exchange.

ghost use Rattle.std.specs.Prelude.{◌≡◌, []};
ghost use Rattle.ring_replication.specs.Replications.{stage_in, watermark_at};

use ring_base::{Fixed, ProcSet};
use ring_log::{Exchange, Log};
use std::alloc::{AllocError, Allocator, Global};

/// The stage of the exchange in the newest installed ring.
///
/// Rules: The replicated log 2 to 4 and 6
#[derive(Drop)]
pub enum ExchangeStage<A: Allocator + Copy = Global> {
    /// The ring isn't primary, so it has no exchange.
    ///
    /// Rules: The replicated log 2
    NotPrimary,
    /// The exchange isn't complete: Heads, pieces of a snapshot or places are missing.
    ///
    /// Rules: The replicated log 4
    Exchanging(Exchange<A>),
    /// The exchange is complete, and the ring has been adopted.
    ///
    /// Rules: The replicated log 6
    Adopted,
}

impl<A: Allocator + Copy> Clone for ExchangeStage<A> {
    ghost is_clone = { λ stage copy. copy ≡ stage };

    fn clone(&self) -> Result<ExchangeStage<A>, AllocError> {
        match self {
            ExchangeStage::NotPrimary => Ok(ExchangeStage::NotPrimary),
            ExchangeStage::Exchanging(exchange) => Ok(ExchangeStage::Exchanging(exchange.clone()?)),
            ExchangeStage::Adopted => Ok(ExchangeStage::Adopted),
        }
    }
}

/// Returns the stage of a ring of these members at its installation.
///
/// If they are primary, it is an exchange with nothing received; otherwise there is none.
///
/// Rules: The replicated log 2 and 3
pub(crate) fn opening_stage<A: Allocator + Copy>(
    alloc: A,
    fixed: Fixed,
    members: ProcSet,
) -> ExchangeStage<A>
    ensures { result ≡ stage_in fixed members [] }
{
    if fixed.is_primary(members) {
        ExchangeStage::Exchanging(Exchange::new(alloc, members))
    } else {
        ExchangeStage::NotPrimary
    }
}
