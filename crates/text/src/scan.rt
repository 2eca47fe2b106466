// The first place of a byte in a part of a text.
ghost use Rattle.std.specs.Prelude.{◌≡◌, ◌+◌, ◌≤◌, ◌<◌, length, unwrap_or, IfSome};
ghost use Rattle.text.specs.Scan.{index_of, slice};

// The first place of `b` from `from` on and before `to`.
pub fn find(text: &[u8], from: usize, to: usize, b: u8) -> Option<usize>
    requires order { from ≤ to }
    requires within { to ≤ length text.now }
    ensures place { unwrap_or result to ≡ from + index_of b (slice from to text.now) }
    ensures bound { unwrap_or result to ≤ to }
    ensures found { IfSome result (λ p. p < to) }
{
    let place = text[from..to].iter().position(|x| *x == b)?;
    Some(from + place)
}
