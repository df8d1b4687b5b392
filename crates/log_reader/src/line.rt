//! A line of a text.
ghost use Rattle.std.specs.Prelude.{slice_get};
ghost use Rattle.log_lines.specs.Gives.{GivesRest};
ghost use Rattle.log_reader.specs.Places.{whole_lines};

use log_lines::cut_line;

/// The line at a place of a text, counted from 0, without the LF that ends it. None where the text has no whole line
/// there: what stands behind the last LF is no line.
#[tactic(auto, using(crate::proofs::WalkLemmas::no_line))]
pub fn line_at(text: &[u8], place: u64) -> Option<&[u8]>
    ensures { GivesRest result (slice_get (whole_lines text.now) place) }
{
    let mut rest = text;
    let mut left = place;
    'lines: while left > 0 {
        let Some((_, more)) = cut_line(rest) else {
            return None;
        };
        rest = more;
        left -= 1;
    }
    match cut_line(rest) {
        Some((line, _)) => Some(line),
        None => None,
    }
}
