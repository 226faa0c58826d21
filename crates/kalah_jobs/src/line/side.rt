//! One side of a position line: its houses and its store.
ghost use Rattle.std.specs.Prelude.{◌≡◌, ◌≤◌, IfSome, IfNone, Some, None};
ghost use Rattle.kalah_jobs.specs.{Limits.{most_line_bytes}, Line.Reading.{number_at}};

use kalah_rules::HouseRow;

// Returns the number at the front of some bytes, and the bytes after it. It is `0`, or one or two digits that do not start with `0`.
// Returns `None` if there is none.
#[inline(always)]
fn read_number(bytes: &[u8]) -> Option<(u8, &[u8])>
    ensures read { IfSome result (λ found. number_at bytes.now ≡ Some (found.0, found.1.now)) }
    ensures none { IfNone result (number_at bytes.now ≡ None) }
{
    let (first, rest) = bytes.split_first()?;
    if !first.is_ascii_digit() {
        return None;
    }
    let high = *first - b'0';
    match rest.split_first() {
        Some((ones, more)) if high > 0 && ones.is_ascii_digit() => {
            Some((10 * high + (*ones - b'0'), more))
        }
        _ => Some((high, rest)),
    }
}

/// A side of any number of houses.
#[derive(Drop)]
pub(crate) struct Side {
    // The houses that a board has room for.
    pub(crate) kept: HouseRow,
    // The number of the others.
    pub(crate) left_out: u8,
    pub(crate) store: u8,
    ghost few: { left_out ≤ most_line_bytes },
}

impl Side {
    ghost use Rattle.std.specs.Prelude.{◌≡◌, ◌≤◌, ◌<◌, ◌+◌, ◌∷◌, [], ◌++◌, ℕ, List, length, IfSome, IfNone, Some, None};
    ghost use Rattle.kalah_jobs.specs.Line.{Reading.{side_at}, Side.{AreKept, StartsWithSide}};

    // Makes a side without houses.
    fn new() -> Side
        ensures houses { AreKept [] result.kept result.left_out }
        ensures none { result.left_out ≡ 0 }
    {
        Side {
            kept: HouseRow::new(),
            left_out: 0,
            store: 0,
        }
    }

    // Appends a house.
    #[inline(always)]
    fn push(&mut self, seeds: u8)
        requires { self.old.left_out < most_line_bytes }
        ensures houses { (houses : List ℕ) → AreKept houses self.old.kept self.old.left_out
            → AreKept (houses ++ seeds ∷ []) self.new.kept self.new.left_out }
        ensures one { self.new.left_out ≤ self.old.left_out + 1 }
    {
        if !self.kept.push(seeds) {
            self.left_out += 1;
        }
    }

    /// Returns the side at the front of some bytes, and the bytes after it.
    #[inline(always)]
    pub(crate) fn read(bytes: &[u8]) -> Option<(Side, &[u8])>
        requires { length bytes.now ≤ most_line_bytes }
        ensures read { IfSome result (λ found. StartsWithSide bytes.now found.0 found.1.now) }
        ensures none { IfNone result (side_at bytes.now ≡ None) }
    {
        let mut side = Side::new();
        let mut rest = bytes;
        loop {
            let (seeds, after) = read_number(rest)?;
            side.push(seeds);
            match after {
                [b'/', more @ ..] => {
                    let (store, after) = read_number(more)?;
                    side.store = store;
                    return Some((side, after));
                }
                [b',', more @ ..] => rest = more,
                _ => return None,
            }
        }
    }

    /// Returns the number of houses.
    pub(crate) fn len(&self) -> u8
        ensures { result ≡ length self.now.kept + self.now.left_out }
    {
        self.kept.len() + self.left_out
    }
}
