//! Tests of frames against `docs/FORMATS.md`: its vectors in both directions, the values that they decode to, its
//! rows of bytes that are no frame, and refused memory. Contracts say which other bytes are frames, and which frames
//! are equal.
//! Formats: Vectors; What is no frame
#![tactic(auto)]

#[cfg(test)]
mod hex_words;
#[cfg(test)]
mod lists;
#[cfg(test)]
mod memory;
#[cfg(test)]
mod values;
#[cfg(test)]
mod vectors;
#[cfg(test)]
mod worked;
