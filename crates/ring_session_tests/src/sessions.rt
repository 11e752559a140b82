//! Calls to a session table, each tried again if a request is refused.
//! Rules: Sessions 3 and 5

use ring_base::Fault;
use ring_object::{Object, Reply};
use ring_payload::Call;
use ring_session::{Answer, Sessions};
use ring_things::{Names, Outcome, outcome_reply};

/// The number of refusals, 0 or 1, of the call with this reply. A refused call is tried again, and its answer shows that
/// table and object were unchanged. `Conflict` for any other answer.
fn refused_of<O: Object>(
    sessions: &mut Sessions<O>,
    call: &Call<O::Alloc>,
    reply: Reply,
) -> Result<u64, Fault> {
    let (answer, refused) = match sessions.apply(call) {
        Err(Fault::Memory) => (sessions.apply(call), 1),
        answer => (answer, 0),
    };
    let was_done = answer == Ok(Answer::Done(reply));
    if was_done && sessions.apply(call) == Ok(Answer::Kept(reply)) {
        Ok(refused)
    } else {
        Err(Fault::Conflict)
    }
}

/// `refused_of` for the call of this step, which inserts a name. If the name were already there, the reply would differ.
fn refused_at<O: Object>(
    sessions: &mut Sessions<O>,
    ample: O::Alloc,
    step: u8,
) -> Result<u64, Fault> {
    let (client, number) = (u32::from(step % 16), u64::from(step / 16) + 1);
    let insert = Names::insert(&[step])?;
    let call = Call::new(ample, client, number, insert.as_slice())?;
    refused_of(sessions, &call, outcome_reply(Outcome::Done))
}

/// `before` plus the refusals of two calls of each of 16 clients, enough for a table of several nodes.
fn refused_then<O: Object>(
    sessions: &mut Sessions<O>,
    ample: O::Alloc,
    before: u64,
) -> Result<u64, Fault> {
    let mut all = before;
    for step in 0..32u8 {
        all = all.saturating_add(refused_at(sessions, ample, step)?);
    }
    Ok(all)
}

/// `refused_then` for a table whose making was refused once.
fn refused_again<O: Object>(heap: O::Alloc, ample: O::Alloc) -> Result<u64, Fault> {
    let mut sessions = Sessions::<O>::new(heap)?;
    refused_then(&mut sessions, ample, 1)
}

/// The refusals of making a table of names and of the calls to it; making it is tried again if it is refused.
pub fn refusals<O: Object>(heap: O::Alloc, ample: O::Alloc) -> Result<u64, Fault> {
    match Sessions::<O>::new(heap) {
        Ok(mut sessions) => refused_then(&mut sessions, ample, 0),
        Err(Fault::Memory) => refused_again::<O>(heap, ample),
        Err(fault) => Err(fault),
    }
}
