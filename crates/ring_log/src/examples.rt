//! Worked examples, computed from the definitions.
//!
//! Rules: The replicated log 3 to 6, 12 and 16
//! Formats: chosen head; short exchange; exchange with a snapshot

ghost use Rattle.std.specs.Prelude.{◌≡◌, true, false, [], ◌∷◌, Some, None};
ghost use Rattle.std.specs.declared.alloc.Global.{Global};
ghost use Rattle.ring_wire.specs.PayloadVariants.{Part, Snap};
ghost use Rattle.ring_log.specs.Exchanges.{wanted, heard, base_at};
ghost use Rattle.ring_log.specs.Parts.{parts_of, pieces_of};
ghost use Rattle.ring_log.specs.Examples.{three, longer_but_older, unequal, wanted_places, calls_from, part_at};
ghost use Rattle.ring_log.specs.Examples.{after_one_part, unequal_base, group_of_three, ring_of, head_at, first_heard};
ghost use Rattle.ring_log.specs.Examples.{first_life, alone, second_heard, second_life};
ghost use Rattle.ring_log.specs.Examples.{trimmed, piece_at, five_bytes, after_snapshot, after_parts, trimmed_base};
ghost use Rattle.ring_log.specs.Examples.{trimmed_whole, known, known_restored};
ghost use Rattle.ring_log.specs.KnownLog.{known_log_opening, known_retained, adopts};
ghost use Rattle.ring_log.specs.EpochHistories.{exchange_end, log_of, last_of, has_adopted, committed_of, head_of_epochs, is_sound};

/// States an example of the chosen head: of three logs, the longest one loses, since its last primary is older.
///
/// Processor 1 has three places, with ring 4.1 as its last primary; processors 2 and 3 have two places, with ring 8.1.
/// Of the two equal Heads, that of the smaller processor is chosen.
///
/// Rules: The replicated log 4 and 5
/// Formats: chosen head
pub fn chosen_head_of_three()
    ensures chosen { wanted longer_but_older ≡ wanted_places 2 0 2 }
{}

/// States an example of an exchange without a snapshot: logs of 20, 18 and 9 places, of which 16, 16 and 9 are
/// committed.
///
/// Processor 1 is the owner. Its places 9 to 19 are wanted, and it sends them in two Parts. Three Parts are ignored:
/// one that arrives before all Heads have, one of another member, and one that doesn't continue the places received so
/// far.
///
/// Rules: The replicated log 2 to 4
/// Formats: short exchange
pub fn wanted_parts()
    ensures wanted { wanted unequal ≡ wanted_places 1 9 20 }
    ensures parts { parts_of 9 (calls_from 9 11) ≡ part_at 9 7 ∷ part_at 16 4 ∷ [] }
    ensures first { base_at unequal 1 (Part (part_at 9 7)) ≡ None }
    ensures second { base_at after_one_part 1 (Part (part_at 16 4)) ≡ unequal_base }
    ensures stranger { heard unequal 2 (Part (part_at 9 7)) ≡ unequal }
    ensures late { heard unequal 1 (Part (part_at 16 4)) ≡ unequal }
    ensures early { heard three 1 (Part (part_at 9 7)) ≡ three }
{}

/// States an example of an exchange with a snapshot: logs of 300, 298 and no places.
///
/// Of these 290, 290 and none are committed, and 256, 256 and none dropped. Processor 1 sends a snapshot of its first
/// 256 places, then the places 256 to 299 in seven Parts, the last of two calls. A Part that arrives before the whole
/// snapshot is ignored. So is a piece that another member sends, that belongs to another number of places, or that
/// doesn't begin where the bytes received so far end.
///
/// Rules: The replicated log 2 to 4
/// Formats: exchange with a snapshot
pub fn wanted_snapshot()
    ensures wanted { wanted trimmed ≡ Some (record { owner = 1; snapshot = Some 256; from = 256; to = 300 }) }
    ensures parts { parts_of 256 (calls_from 256 44) ≡ part_at 256 7 ∷ part_at 263 7 ∷ part_at 270 7 ∷ part_at 277 7 ∷ part_at 284 7
        ∷ part_at 291 7 ∷ part_at 298 2 ∷ [] }
    ensures pieces { pieces_of 256 five_bytes ≡ piece_at 256 5 0 five_bytes ∷ [] }
    ensures early { heard trimmed 1 (Part (part_at 256 7)) ≡ trimmed }
    ensures stranger { heard trimmed 2 (Snap (piece_at 256 5 0 five_bytes)) ≡ trimmed }
    ensures others { heard trimmed 1 (Snap (piece_at 255 5 0 five_bytes)) ≡ trimmed }
    ensures late { heard trimmed 1 (Snap (piece_at 256 7005 7000 five_bytes)) ≡ trimmed }
    ensures again { heard after_snapshot 1 (Snap (piece_at 256 5 0 five_bytes)) ≡ after_snapshot }
    ensures snapshot { base_at trimmed 1 (Snap (piece_at 256 5 0 five_bytes)) ≡ None }
    ensures base { base_at (after_parts after_snapshot 256 6) 1 (Part (part_at 298 2)) ≡ trimmed_base }
{}

/// States how each of three nodes adopts the exchange of [`wanted_snapshot`] with ring 9.1.
///
/// The two nodes that have committed 290 places keep their own places below 256, and take the places from there on. The
/// node without places restores the snapshot, so that its first 256 places are committed and dropped.
///
/// Rules: The replicated log 6
/// Formats: exchange with a snapshot
pub fn adopted_snapshot()
    ensures owner { adopts (known 4 300) (ring_of 9 1) trimmed_whole ≡ known 9 300 }
    ensures second { adopts (known 4 298) (ring_of 9 1) trimmed_whole ≡ known 9 300 }
    ensures third { adopts known_log_opening (ring_of 9 1) trimmed_whole ≡ known_restored 9 }
    ensures undropped { known_retained (known 9 300) ≡ calls_from 256 34 }
{}

/// States an example of a node's log and committed places in two primary rings, with a ring of one between them.
///
/// A ring's log is its base and the calls after the exchange. Once the safe mark covers the exchange, the calls up to
/// the mark are committed. The ring of one isn't primary and changes nothing.
///
/// Rules: The replicated log 12 and 16
pub fn logs_over_epochs()
    ensures first_end { exchange_end group_of_three 7 first_heard ≡ Some 6 }
    ensures first_log { log_of group_of_three (first_life 6) ≡ calls_from 1 1 }
    ensures agreed { committed_of group_of_three (first_life 6) ≡ [] }
    ensures safe { committed_of group_of_three (first_life 7) ≡ calls_from 1 1 }
    ensures alone_log { log_of group_of_three alone ≡ calls_from 1 1 }
    ensures alone_head { head_of_epochs group_of_three alone ≡ head_at 1 1 1 }
    ensures second_end { exchange_end group_of_three 7 second_heard ≡ Some 7 }
    ensures second_log { log_of group_of_three (second_life 0) ≡ calls_from 1 4 }
    ensures second_last { last_of group_of_three (second_life 0) ≡ Some (ring_of 3 1) }
    ensures kept { committed_of group_of_three (second_life 6) ≡ calls_from 1 1 }
    ensures base { committed_of group_of_three (second_life 7) ≡ calls_from 1 2 }
    ensures all { committed_of group_of_three (second_life 8) ≡ calls_from 1 4 }
    ensures adopted { has_adopted group_of_three (second_life 0) (ring_of 1 1) ≡ true }
    ensures not_primary { has_adopted group_of_three (second_life 0) (ring_of 2 2) ≡ false }
    ensures sound { is_sound group_of_three (second_life 8) ≡ true }
{}
