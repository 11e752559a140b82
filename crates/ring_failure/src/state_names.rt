//! The names of the ring states in the program's output.
//!
//! Formats: What a script prints

ghost use Rattle.std.specs.Prelude.{◌≡◌};
ghost use Rattle.ring_failure.specs.Texts.{state_name_text};

use ring_base::State;

/// Returns the word for a state in the program's output: `gather`, `commit`, `recovery`, `operational` or `stopped`.
///
/// Formats: What a script prints
pub fn state_name(state: State) -> &'static str
    ensures { result.now ≡ state_name_text state }
{
    match state {
        State::Gather => "gather",
        State::Commit => "commit",
        State::Recovery => "recovery",
        State::Operational => "operational",
        State::Stopped => "stopped",
    }
}
