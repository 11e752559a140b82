//! Tests of groups and sets as plain values, and of which sets are primary.
//! Rules: Processors and sets 1 to 4

use ring_base::{Fixed, ProcSet};
use std::test::Fail;

/// Groups are equal where their votes are; a group takes 17 bytes; a default set is empty.
#[test]
fn plain_values(rt: HostRuntime) {
    assert!(rt; Fixed::with_votes(&[1; 16]) == Fixed::new(16));
    assert!(rt; Fixed::with_votes(&[2; 16]) != Fixed::new(16));
    assert!(rt; ProcSet::default() == ProcSet::new());
    prove!(size_of::<Fixed>() == 17);
}

/// The votes worked out in docs/FORMATS.md: half of all votes is no primary.
#[test]
fn primaries(rt: HostRuntime) -> Result<(), Fail> {
    let table: [(&[u8], u16, bool); 13] = [
        (&[3, 1, 1, 1], 0b0011, true),
        (&[3, 1, 1, 1], 0b0001, false),
        (&[3, 1, 1, 1], 0b1110, false),
        (&[255; 16], 0x00FF, false),
        (&[255; 16], 0xFF00, false),
        (&[255; 16], 0x01FF, true),
        (&[255; 16], 0xFF80, true),
        (&[1; 4], 0b0011, false),
        (&[1; 4], 0b0101, false),
        (&[1; 4], 0b0110, false),
        (&[1; 4], 0b1001, false),
        (&[1; 4], 0b1010, false),
        (&[1; 4], 0b1100, false),
    ];
    for (votes, members, wanted) in &table {
        let fixed = Fixed::with_votes(*votes)?;
        let told = fixed.is_primary(ProcSet::from_bits(*members));
        assert!(rt; told == *wanted, "{members:b}");
    }
    Ok(())
}
