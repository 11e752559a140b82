//! Injections: the events that are put into the runs of a script, and their positions.
//!
//! Formats: The command line

ghost use Rattle.std.specs.Prelude.{◌≡◌};
ghost use Rattle.ring_base.specs.Processors.{IsProc};
ghost use Rattle.ring_sweep.specs.Variants.{injection_at, line_of_injection};

use ring_base::Proc;
use ring_console::{Groups, ScriptLine};
use std::alloc::Allocator;
use std::fmt;

/// The kind of an injected event.
///
/// It is displayed as the first word of its script line, `stop` or `cut`.
///
/// Formats: The command line
#[derive(Clone, Copy, Debug, PartialEq, Eq)]
pub enum InjectionKind {
    /// The node stops for good.
    Stop,
    /// The node is cut off from all others.
    ///
    /// It replaces an earlier cut.
    Cut,
}

/// An event that a variant of a sweep puts into the run of a script: its position, its node and its kind.
///
/// Formats: The command line
#[derive(Clone, Copy, Debug, PartialEq, Eq)]
pub struct Injection {
    /// The index, counted from 0, of the script's event before which it comes.
    ///
    /// If it is the number of events, the injection comes at the end.
    pub before: u64,
    /// The node that stops or is cut off, from 1 to the number of nodes.
    pub node: Proc,
    /// Whether the node stops or is cut off.
    pub injection_kind: InjectionKind,
}

impl Injection {
    /// Returns the injection of the variant with the index `place`, counted from 0, in a script of `count` nodes.
    ///
    /// `count` must be 1 to 16.
    ///
    /// Before each event in turn, each node is first stopped and then cut off, in the order of the nodes.
    ///
    /// Formats: The command line
    pub(crate) fn of_variant(count: u8, place: u64) -> Injection
        requires { IsProc count }
        ensures { result ≡ injection_at count place }
    {
        let each = 2 * u64::from(count);
        let node = Proc::new((place % each / 2) as u8 + 1);
        let injection_kind = if place % 2 == 0 {
            InjectionKind::Stop
        } else {
            InjectionKind::Cut
        };
        Injection {
            before: place / each,
            node,
            injection_kind,
        }
    }

    /// Returns the request of the script line that injects this event.
    ///
    /// Formats: Scripts
    pub(crate) fn injected_request<A: Allocator + Copy>(self) -> ScriptLine<A>
        ensures { result ≡ line_of_injection self }
    {
        match self.injection_kind {
            InjectionKind::Stop => ScriptLine::Stop { node: self.node },
            InjectionKind::Cut => ScriptLine::Cut(Groups::isolating_one(self.node)),
        }
    }
}

/// Displays the kind as the first word of its script line.
impl fmt::Display for InjectionKind {
    ghost use Rattle.std.specs.Prelude.{Some};
    ghost use Rattle.ring_sweep.specs.SweepResult.{injection_kind_name};

    ghost output = { λ injection_kind. Some (injection_kind_name injection_kind) };

    fn fmt<W: fmt::Write>(&self, f: &mut fmt::Formatter<W>) -> fmt::Result {
        match self {
            InjectionKind::Stop => write!(f, "stop"),
            InjectionKind::Cut => write!(f, "cut"),
        }
    }
}

/// An injection into a run, displayed as `stop I before event E`, with events counted from 1, or as `stop I at the
/// end`.
///
/// Formats: The command line
#[derive(Clone, Copy)]
pub(crate) struct InjectionText<'a> {
    /// The injection.
    pub injection: &'a Injection,
    /// The number of the script's events.
    pub events: u64,
}

impl fmt::Display for InjectionText<'_> {
    ghost use Rattle.std.specs.Prelude.{Some};
    ghost use Rattle.ring_sweep.specs.SweepResult.{injection_text};

    ghost output = { λ told. Some (injection_text told.events told.injection.now) };

    fn fmt<W: fmt::Write>(&self, f: &mut fmt::Formatter<W>) -> fmt::Result {
        let (before, node, injection_kind) = (
            self.injection.before,
            self.injection.node,
            self.injection.injection_kind,
        );
        if before < self.events {
            write!(f, "{injection_kind} {node} before event {}", before + 1)
        } else {
            write!(f, "{injection_kind} {node} at the end")
        }
    }
}
