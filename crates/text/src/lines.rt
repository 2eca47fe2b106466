// Lines `key=value`: where a piece ends, when it is a line, its key, its value and its comma fields. Nothing is copied.
ghost use Rattle.std.specs.Prelude.{◌≡◌, ◌∷◌, ◌+◌, ◌-◌, ◌<◌, ◌≤◌, length, take, drop, leb, unwrap_or, IfSome};
ghost use Rattle.text.specs.Bytes.{all, same};
ghost use Rattle.text.specs.Lines.{cut, line_of, before_eq, after_eq, white, trim_start, trim_end, trim, fields};
ghost use Rattle.text.specs.Lines.{value as Lines·value};
ghost use Rattle.text.specs.Searches.{line_if, key_up_to, field_up_to};

use crate::scan;

// Past the first byte 10 from `from` on, or the end where there is none.
pub fn piece_end(text: &[u8], from: usize) -> usize
    requires { from < length text.now }
    ensures { (from < result) × (result ≤ length text.now) × (cut (drop from text.now) ≡ take (result - from) (drop from text.now) ∷ cut (drop result text.now)) }
{
    match scan::find(text, from, text.len(), b'\n') {
        Some(p) => p + 1,
        None => text.len(),
    }
}

const LAST_ASCII: u8 = 127;

// Whether every byte is ASCII.
pub fn is_ascii(l: &[u8]) -> bool
    ensures { result ≡ all (λ b. leb b 127) l.now }
{
    l.iter().all(|b| *b <= LAST_ASCII)
}

const LONGEST: usize = 256;

// Whether a piece is a line: at most 256 bytes, ASCII, ended by byte 10. The line is then what stands before that byte.
pub fn is_line(piece: &[u8]) -> bool
    ensures { line_of piece.now ≡ line_if result piece.now }
{
    piece.len() <= LONGEST && is_ascii(piece) && piece.ends_with(b"\n")
}

// The place of the first `=`.
pub fn equals_at(line: &[u8]) -> Option<usize>
    ensures place { let p = unwrap_or result (length line.now) in
        (p ≤ length line.now) × (before_eq line.now ≡ key_up_to p line.now) × (after_eq line.now ≡ drop (p + 1) line.now) }
    ensures found { IfSome result (λ p. p < length line.now) }
{
    scan::find(line, 0, line.len(), b'=')
}

// Whether two texts are the same, byte by byte.
pub fn is_same(a: &[u8], b: &[u8]) -> bool
    ensures { result ≡ same a.now b.now }
{
    a == b
}

// 9 to 13, and the space; Rust's `is_ascii_whitespace` leaves out 11.
fn is_white(b: u8) -> bool
    ensures { result ≡ white b }
{
    matches!(b, 9..=13 | b' ')
}

// Past the white space at the start.
fn skip_white(line: &[u8]) -> usize
    ensures { (result ≤ length line.now) × (drop result line.now ≡ trim_start line.now) }
{
    line.iter()
        .position(|b| !is_white(*b))
        .unwrap_or(line.len())
}

// Where the white space at the end starts.
fn white_end(text: &[u8]) -> usize
    ensures { (result ≤ length text.now) × (take result text.now ≡ trim_end text.now) }
{
    match text.iter().rposition(|b| !is_white(*b)) {
        Some(last) => last + 1,
        None => 0,
    }
}

// The part of a text that is left when white space is trimmed.
pub fn trimmed(s: &[u8]) -> &[u8]
    ensures { result.now ≡ trim s.now }
{
    let rest = &s[skip_white(s)..];
    &rest[..white_end(rest)]
}

// The part of the caller's line after the first `=`, trimmed.
pub fn value(line: &[u8]) -> &[u8]
    ensures { result.now ≡ Lines·value line.now }
{
    match equals_at(line) {
        Some(p) => trimmed(&line[p + 1..]),
        None => &line[line.len()..],
    }
}

// The place of the first comma from `from` on.
pub fn comma_at(v: &[u8], from: usize) -> Option<usize>
    requires { from ≤ length v.now }
    ensures place { let p = unwrap_or result (length v.now) in (from ≤ p) × (p ≤ length v.now) × (fields (drop from v.now) ≡ field_up_to from p v.now) }
    ensures found { IfSome result (λ p. p < length v.now) }
{
    scan::find(v, from, v.len(), b',')
}
