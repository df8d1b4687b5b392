//! Where bytes and a text part that comes piece by piece.
ghost use Rattle.std.specs.Prelude.{◌≡◌, ◌≤◌, count_by, length, slice_get, IfSome};
ghost use Rattle.log_replay.specs.Apart.{IsWithin, behind, ended_before, ends_line, one_more, parted, with_byte};
ghost use Rattle.log_replay.specs.declared.apart.Progress.TheVariants.{Along};

// How far bytes and a text have been compared.
#[derive(Clone, Copy)]
pub(crate) enum Progress {
    // They are one up to this place of the bytes.
    Along { place: usize },
    // They part at this place.
    Parted { place: usize },
}

// With a byte more of the text, where they are one so far.
fn one_more(bytes: &[u8], place: usize, byte: u8) -> Progress
    requires within { place ≤ length bytes.now }
    ensures progress { result ≡ one_more place byte (slice_get bytes.now place) }
    ensures within { IsWithin bytes.now result }
{
    match bytes.get(place) {
        Some(own) => {
            if *own == byte {
                Progress::Along { place: place + 1 }
            } else {
                Progress::Parted { place }
            }
        }
        None => Progress::Parted { place },
    }
}

// With a byte more of the text.
fn with_byte(bytes: &[u8], progress: Progress, byte: u8) -> Progress
    requires within { IsWithin bytes.now progress }
    ensures progress { result ≡ with_byte bytes.now progress byte }
    ensures within { IsWithin bytes.now result }
{
    match progress {
        Progress::Along { place } => one_more(bytes, place, byte),
        Progress::Parted { place } => Progress::Parted { place },
    }
}

// With a piece more of the text, byte by byte.
fn behind_bytes(bytes: &[u8], start: Progress, piece: &[u8]) -> Progress
    requires within { IsWithin bytes.now start }
    ensures progress { result ≡ behind bytes.now start piece.now }
    ensures within { IsWithin bytes.now result }
{
    let mut progress = start;
    for byte in piece {
        progress = with_byte(bytes, progress, *byte);
    }
    progress
}

// With a piece more of the text, where they are one so far. A piece that stands there as a whole takes one comparison.
fn along(bytes: &[u8], place: usize, piece: &[u8]) -> Progress
    requires within { place ≤ length bytes.now }
    ensures progress { result ≡ behind bytes.now (Along place) piece.now }
    ensures within { IsWithin bytes.now result }
{
    match bytes.split_at(place).1.strip_prefix(piece) {
        Some(_) => Progress::Along {
            place: place + piece.len(),
        },
        None => behind_bytes(bytes, Progress::Along { place }, piece),
    }
}

// With a piece more of the text.
#[tactic(auto, using(crate::proofs::ProgressLemmas::stays))]
pub(crate) fn behind(bytes: &[u8], start: Progress, piece: &[u8]) -> Progress
    requires within { IsWithin bytes.now start }
    ensures progress { result ≡ behind bytes.now start piece.now }
    ensures within { IsWithin bytes.now result }
{
    match start {
        Progress::Along { place } => along(bytes, place, piece),
        Progress::Parted { place } => Progress::Parted { place },
    }
}

// How many lines end in these bytes.
fn line_count(bytes: &[u8]) -> usize
    ensures count { result ≡ count_by ends_line bytes.now }
    ensures within { result ≤ length bytes.now }
{
    let mut count = 0;
    for byte in bytes {
        if *byte == b'\n' {
            count += 1;
        }
    }
    count
}

// How many lines end in front of a place.
fn ended_before(bytes: &[u8], place: usize) -> u64
    requires within { place ≤ length bytes.now }
    ensures lines { result ≡ ended_before bytes.now place }
    ensures few { result ≤ length bytes.now }
{
    line_count(bytes.split_at(place).0) as u64
}

// How many lines ended in front of the first difference, where no more of the text comes. `None` where there is none.
pub(crate) fn parted(bytes: &[u8], progress: Progress) -> Option<u64>
    requires within { IsWithin bytes.now progress }
    ensures lines { result ≡ parted bytes.now progress }
    ensures few { IfSome result (λ line. line ≤ length bytes.now) }
{
    match progress {
        Progress::Along { place } => {
            if place < bytes.len() {
                Some(ended_before(bytes, place))
            } else {
                None
            }
        }
        Progress::Parted { place } => Some(ended_before(bytes, place)),
    }
}
