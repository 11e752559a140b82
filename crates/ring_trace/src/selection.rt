//! The events to report.
//!
//! Formats: The command line

ghost use Rattle.std.specs.Prelude.{◌≡◌, ◌≤◌, ◌↔◌, IsTrue};
ghost use Rattle.ring_trace.specs.Selections.{all_events, IsOf};

use ring_base::Proc;
use ring_trace_formats::TraceFormat;
use std::fmt;

/// The selection of the events to report: of one node or of all, with numbers in a range.
///
/// Events are counted from 1.
///
/// Formats: The command line
#[derive(Clone, Copy)]
pub struct Selection {
    /// The node whose events are reported, or `None` for all nodes.
    pub node: Option<Proc>,
    /// The number of the first event to report.
    ///
    /// If it is 0, cuts before the first event are reported, too.
    pub from: u64,
    /// The number of the last event to report, not below `from`.
    pub to: u64,
}

impl Selection {
    /// Returns the selection of all events, of all nodes.
    pub fn all() -> Selection
        ensures { result ≡ all_events }
    {
        Selection {
            node: None,
            from: 0,
            to: u64::MAX,
        }
    }

    /// Returns whether event `event`, at the node `at`, is reported.
    ///
    /// A cut or the end of a cut is at no node. Every selection of a node includes it, and `event` is then the number
    /// of events before it.
    ///
    /// Formats: The command line
    pub fn selects_event(&self, event: u64, at: Option<Proc>) -> bool
        ensures { IsTrue result ↔ ((self.now.from ≤ event) × (event ≤ self.now.to) × IsOf self.now.node at) }
    {
        self.from <= event && event <= self.to && self.selects_node(at)
    }

    /// Returns why the selection is empty for a script with `nodes` nodes, or isn't for the format.
    ///
    /// A page always has the whole run. Returns `None` if there is no such fault.
    ///
    /// Formats: The command line
    pub(crate) fn fault_of(&self, nodes: u8, format: TraceFormat) -> Option<SelectionFault> {
        let is_whole = self.node.is_none() && self.from == 0 && self.to == u64::MAX;
        match self.node {
            _ if format == TraceFormat::Html && !is_whole => Some(SelectionFault::Page),
            Some(node) if node.number() > nodes => Some(SelectionFault::Node {
                node: node.number(),
                nodes,
            }),
            _ if self.from > self.to => Some(SelectionFault::Range {
                from: self.from,
                to: self.to,
            }),
            _ => None,
        }
    }

    /// Returns the fault of a selection that begins after the last of `events` events, or `None` if it doesn't.
    ///
    /// Formats: The command line
    pub(crate) fn fault_after_events(&self, events: u64) -> Option<SelectionFault> {
        if self.from <= events {
            return None;
        }
        Some(SelectionFault::Event {
            event: self.from,
            events,
        })
    }

    /// Returns whether events at this node are reported.
    fn selects_node(&self, at: Option<Proc>) -> bool
        ensures { IsTrue result ↔ IsOf self.now.node at }
    {
        match (self.node, at) {
            (Some(node), Some(at)) => node == at,
            _ => true,
        }
    }
}

/// The reason why a selection is empty or isn't for the format.
///
/// It is displayed as its line on standard error, without its line feed.
///
/// Formats: The command line
#[derive(Clone, Copy, Debug, PartialEq, Eq)]
pub(crate) enum SelectionFault {
    /// The script has only this number of nodes.
    Node { node: u8, nodes: u8 },
    /// The first event is after the last.
    Range { from: u64, to: u64 },
    /// The run has only this number of events.
    Event { event: u64, events: u64 },
    /// A page has the whole run.
    Page,
}

impl fmt::Display for SelectionFault {
    fn fmt<W: fmt::Write>(&self, f: &mut fmt::Formatter<W>) -> fmt::Result {
        match *self {
            SelectionFault::Node { node, nodes } => {
                write!(f, "totem: there is no node {node}, the last is {nodes}")
            }
            SelectionFault::Range { from, to } => {
                write!(f, "totem: there is no event from {from} to {to}")
            }
            SelectionFault::Event { event, events } => {
                write!(f, "totem: there is no event {event}, the last is {events}")
            }
            SelectionFault::Page => f.write_str(
                "totem: a page has the whole run, without --node, --from and --to",
            ),
        }
    }
}
