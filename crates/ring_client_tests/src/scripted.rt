//! A port with a scripted behaviour, which lists its submits.

ghost use Rattle.std.specs.Prelude.{◌≡◌, IfSome};
ghost use Rattle.ring_client.specs.Asking.{IsClientVisible};

use ring_base::{Fault, pair_result};
use ring_client::{Asked, Client, Port};
use ring_payload::Call;
use ring_session::Answer;
use std::alloc::Allocator;

/// What a port does with a call.
#[derive(Clone, Copy)]
pub enum Behaviour {
    /// It refuses the submit.
    Refuses(Fault),
    /// It never answers.
    IsSilent,
    /// It gives no answer at this number of polls, and then this answer.
    AnswersAfter(u64, Answer),
}

/// Returns the answer, if a call can have it: `Done`, `Kept`, or `Refused` with a number from 4 to 7.
fn told(answer: Answer) -> Option<Answer>
    ensures { IfSome result IsClientVisible }
{
    match answer {
        Answer::Done(_) | Answer::Kept(_) => Some(answer),
        Answer::Refused(number) => {
            if number < 4 || number > 7 {
                None
            } else {
                Some(answer)
            }
        }
    }
}

/// Returns the result of a poll at a port of this behaviour, after `polls` polls since the submit.
fn answer_of(behaviour: &Behaviour, polls: u64) -> Option<Answer>
    ensures { IfSome result IsClientVisible }
{
    match behaviour {
        Behaviour::AnswersAfter(silent, answer) => {
            if polls >= *silent {
                told(*answer)
            } else {
                None
            }
        }
        _ => None,
    }
}

/// Accepts a call at a port of this behaviour, or returns its refusal.
fn takes(behaviour: &Behaviour) -> Result<(), Fault> {
    match behaviour {
        Behaviour::Refuses(fault) => Err(*fault),
        _ => Ok(()),
    }
}

/// A port of this behaviour.
#[derive(Drop)]
pub struct Scripted<A: Allocator + Copy + Drop> {
    behaviour: Behaviour,
    /// Client and number of each call submitted, in order.
    pub submits: Vec<(u32, u64), A>,
    asked: Asked,
}

impl<A: Allocator + Copy + Drop> Scripted<A> {
    /// Returns the port, whose list of submits has its memory in `ample`.
    pub fn new(ample: A, behaviour: Behaviour) -> Scripted<A> {
        Scripted {
            behaviour,
            submits: Vec::new(ample),
            asked: Asked::new(),
        }
    }

    /// Refuses a call, or lists it.
    fn take(&mut self, client: u32, number: u64) -> Result<(), Fault>
        ensures { self.new.asked ≡ self.old.asked }
    {
        takes(&self.behaviour)?;
        self.submits.push((client, number))?;
        Ok(())
    }
}

impl<A: Allocator + Copy + Drop> Port for Scripted<A> {
    type Alloc = A;

    type Ticket = ();

    ghost asked_of = { λ port. port.asked };

    fn submit(&mut self, call: &Call<A>) -> Result<(), Fault> {
        self.asked.note_submit(call);
        let submit = self.take(call.client, call.number);
        if let Err(fault) = submit {
            self.asked.note_refusal(fault);
        }
        submit
    }

    fn poll(&mut self, _ticket: &()) -> Option<Answer> {
        let answer = answer_of(&self.behaviour, self.asked.polls);
        self.asked.note_poll(answer);
        self.asked.answer
    }

    fn asked(&self) -> &Asked {
        &self.asked
    }
}

/// Adds a port for each of these behaviours.
fn add_ports<A: Allocator + Copy + Drop>(
    ample: A,
    ports: &mut Vec<Scripted<A>, A>,
    behaviours: &[Behaviour],
) -> Result<(), Fault> {
    for behaviour in behaviours {
        ports.push(Scripted::new(ample, *behaviour))?;
    }
    Ok(())
}

/// Returns client 7 with a port for each of these behaviours. Its calls have their memory in `heap`, and it polls each
/// port at most `turns` times a call.
/// Errors: `Memory`.
pub fn client_of<A: Allocator + Copy + Drop>(
    heap: A,
    ample: A,
    behaviours: &[Behaviour],
    turns: u64,
) -> Result<Client<Scripted<A>>, Fault> {
    let mut ports = Vec::new(ample);
    let added = add_ports(ample, &mut ports, behaviours);
    let (ports, ()) = pair_result(ports, added)?;
    Ok(Client::new(heap, 7, ports, turns))
}
