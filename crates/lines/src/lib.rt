// The lines of a listing: definitions and laws (specs/); where a byte stands next, and what is left.
#![tactic(auto)]

ghost use Rattle.std.specs.Prelude.{◌≡◌, ◌+◌, ◌-◌, ◌≤◌, length, drop};
ghost use Rattle.lines.specs.Until.{length_to};

// Where the first b stands from `at` on; where none does, the end, or `at` itself if it is past the end.
pub fn until(s: &[u8], at: usize, b: u8) -> usize
    ensures { (result ≡ at + length_to b (drop at s.now)) × (result ≤ at + (length s.now - at)) }
{
    let Some(tail) = s.get(at..) else {
        return at;
    };
    at + tail.iter().take_while(|x| **x != b).count()
}

// What is left of so many bytes when so many are gone.
pub fn left(size: usize, gone: usize) -> usize
    ensures { result ≡ size - gone }
{
    size.saturating_sub(gone)
}
