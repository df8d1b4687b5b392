//! Where a log is cut into lines, and a line into its parts.
ghost use Rattle.std.specs.Prelude.{◌≡◌, ◌==◌, ◌<◌, length, IfSome};
ghost use Rattle.std.specs.List.{position};
ghost use Rattle.log_lines.specs.Cut.{after, cut};
ghost use Rattle.log_lines.specs.Gives.{GivesParts, GivesRest};

use memchr::memchr;

// The first place of a byte.
fn place_of(text: &[u8], byte: u8) -> Option<usize>
    ensures { result ≡ position (λ b. b == byte) text.now }
{
    text.iter().position(|b| *b == byte)
}

/// What stands in front of the first such byte and what stands behind it, where there is one.
#[tactic(auto, unfolding(crate::specs::Cut::cut))]
pub(crate) fn cut(text: &[u8], byte: u8) -> Option<(&[u8], &[u8])>
    ensures parts { GivesParts result (cut byte text.now) }
    ensures shorter { IfSome result (λ p. length p.1.now < length text.now) }
{
    match place_of(text, byte) {
        None => None,
        Some(place) => Some((text.split_at(place).0, text.split_at(place + 1).1)),
    }
}

/// What stands in front of the first LF and what stands behind it. In bytes of many lines it is found faster than by
/// `cut`.
#[tactic(auto, unfolding(crate::specs::Cut::cut))]
pub fn cut_line(bytes: &[u8]) -> Option<(&[u8], &[u8])>
    ensures parts { GivesParts result (cut 10 bytes.now) }
    ensures shorter { IfSome result (λ p. length p.1.now < length bytes.now) }
{
    match memchr(b'\n', bytes) {
        None => None,
        Some(place) => Some((bytes.split_at(place).0, bytes.split_at(place + 1).1)),
    }
}

/// What stands behind these words, where the text begins with them.
#[tactic(auto, unfolding(crate::specs::Cut::after))]
pub(crate) fn after<'a>(text: &'a [u8], words: &[u8]) -> Option<&'a [u8]>
    ensures { GivesRest result (after words.now text.now) }
{
    text.strip_prefix(words)
}
