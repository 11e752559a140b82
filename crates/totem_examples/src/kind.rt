//! The kinds of examples that are data. `data` says what each is.

/// The kind of an example. The head of `data` says what each is.
#[derive(Clone, Copy)]
pub enum Kind {
    Script,
    Check,
    Sweep,
    Frames,
    Records,
    Words,
    Legal,
    Explain,
    Trace,
    Picture,
    Claims,
    Same,
    Broken,
}

/// The kinds, in the order in which they are run.
pub const KINDS: [Kind; 13] = [
    Kind::Script,
    Kind::Check,
    Kind::Sweep,
    Kind::Frames,
    Kind::Records,
    Kind::Words,
    Kind::Legal,
    Kind::Explain,
    Kind::Trace,
    Kind::Picture,
    Kind::Claims,
    Kind::Same,
    Kind::Broken,
];

impl Kind {
    /// Returns the ending of the file names of such examples, with its dot.
    pub fn ending(self) -> &'static str {
        match self {
            Kind::Script => ".script",
            Kind::Check => ".check",
            Kind::Sweep => ".sweep",
            Kind::Frames => ".frames",
            Kind::Records => ".records",
            Kind::Words => ".words",
            Kind::Legal => ".legal",
            Kind::Explain => ".explain",
            Kind::Trace => ".trace",
            Kind::Picture => ".svg",
            Kind::Claims => ".claims",
            Kind::Same => ".same",
            Kind::Broken => ".broken",
        }
    }
}
