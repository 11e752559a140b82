//! The names of values, as help and usage show them.
//!
//! Formats: The command line

/// Returns the name of the value of the option `option`, such as N in `--nodes <N>`.
///
/// For an option that isn't listed here it is `VALUE`.
///
/// Formats: The command line
pub(crate) fn value_name(option: &str) -> &'static str {
    match option {
        "nodes" | "of" => "N",
        "me" | "node" => "I",
        "calls" | "threads" | "variant" => "K",
        "events" => "M",
        "seed" => "S",
        "seeds" => "A..B",
        "votes" => "V1,..,VN",
        "periods" => "JOIN,RETRANSMIT,CONSENSUS,LOSS",
        "from" => "E",
        "to" => "F",
        "format" => "FORMAT",
        "frames" => "OUT",
        _ => "VALUE",
    }
}
