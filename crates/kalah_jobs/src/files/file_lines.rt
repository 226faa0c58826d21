//! The lines of a file.
ghost use Rattle.std.specs.Prelude.{◌≡◌, ◌+◌, ◌<◌, ◌≤◌, ◌==◌, ◌∷◌, length, take, get_or, count_by, IfSome, None};
ghost use Rattle.kalah_jobs.specs.Files.Lines.{line_feed, lines_of, HasNoLineFeed};

/// The byte that ends a line.
pub(crate) const LINE_FEED: u8 = b'\n';

// The most bytes whose line feeds are counted in a byte.
const BLOCK: usize = 255;

// The bytes that are compared between two tests of the end.
const STRIDE: usize = 8;

// Returns the index of the first line feed of `bytes[from..from + count]`, if there is one.
#[inline(always)]
fn feed_among(bytes: &[u8], from: usize, count: usize) -> Option<usize>
    requires before { HasNoLineFeed (take from bytes.now) }
    requires range { from + count ≤ length bytes.now }
    ensures found { IfSome result (λ feed. (feed < length bytes.now) × HasNoLineFeed (take feed bytes.now)
        × (get_or bytes.now feed 0 ≡ line_feed)) }
    ensures none { result ≡ None → HasNoLineFeed (take (from + count) bytes.now) }
{
    for i in 0..count {
        if bytes[from + i] == LINE_FEED {
            return Some(from + i);
        }
    }
    None
}

/// Returns the first line of some bytes, and the bytes after it.
#[inline(always)]
#[tactic(auto, using(crate::proofs::FileLinesLemmas::first_lines))]
pub(crate) fn first_line(bytes: &[u8]) -> (&[u8], &[u8])
    requires { 0 < length bytes.now }
    ensures lines { lines_of bytes.now ≡ result.0.now ∷ lines_of result.1.now }
    ensures shorter { length result.1.now < length bytes.now }
{
    let mut from = 0;
    while bytes.len() - from >= STRIDE {
        if let Some(feed) = feed_among(bytes, from, STRIDE) {
            return (&bytes[..feed], &bytes[feed + 1..]);
        }
        from += STRIDE;
    }
    match feed_among(bytes, from, bytes.len() - from) {
        Some(feed) => (&bytes[..feed], &bytes[feed + 1..]),
        None => (bytes, &bytes[bytes.len()..]),
    }
}

// Returns the number of line feeds in a block of bytes. It counts in a byte, so that the processor compares many bytes at once.
fn count_feeds_in_block(block: &[u8]) -> u8
    requires { length block.now ≤ BLOCK }
    ensures { result ≡ count_by (λ byte. byte == line_feed) block.now }
{
    let mut count = 0;
    for byte in block {
        if *byte == LINE_FEED {
            count += 1;
        }
    }
    count
}

/// Returns the number of lines.
pub(crate) fn count_lines(bytes: &[u8]) -> usize
    ensures { result ≡ length (lines_of bytes.now) }
{
    let Some((_, before)) = bytes.split_last() else {
        return 0;
    };
    // The last byte ends a line, or stands in one that is not ended.
    let mut lines = 1;
    let mut rest = before;
    while !rest.is_empty() {
        let (block, after) = rest.split_at(rest.len().min(BLOCK));
        lines += count_feeds_in_block(block) as usize;
        rest = after;
    }
    lines
}
