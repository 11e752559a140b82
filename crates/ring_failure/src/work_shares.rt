//! The bounds of shares and rounds of work.

ghost use Rattle.std.specs.Prelude.{◌≡◌};
ghost use Rattle.ring_failure.specs.Shares.{share_begin, round_end};

/// Returns the index, counted from 0, of the first item of a share, if `many` items are divided into `shares` shares.
///
/// `share` is the share's index, counted from 0; the share ends where the next one begins. 0 shares are treated as 1.
/// All shares are as large as the first while enough items are left. The last shares may have fewer items, or none. An
/// empty share, or one with a greater index, begins at `many`.
pub fn share_begin(many: u64, shares: u16, share: u64) -> u64
    ensures { result ≡ share_begin many shares share }
{
    let each = (many / u64::from(shares.max(1))).saturating_add(1);
    each.saturating_mul(share).min(many)
}

/// Returns the index after the last item of a round of `size` items that begins at the index `begin`, counted from 0,
/// of `many` items in all.
///
/// It is at most `many`. A size of 0 is treated as 1, so a round has an item if one is left.
pub fn round_end(begin: u64, size: u64, many: u64) -> u64
    ensures { result ≡ round_end begin size many }
{
    begin.saturating_add(size.max(1)).min(many)
}
