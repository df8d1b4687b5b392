//! The tokens of a text.
ghost use Rattle.std.specs.Prelude.{◌≡◌, ℕ, ◌+◌, ◌-◌, ◌*◌, ◌<◌, ◌≤◌, ◌^◌, length, take, drop, IfOk, min, slice_index, true, false, All, MatchOption, ⊤, ◌∷◌, []};
ghost use Rattle.std.specs.List.{prefix_len, list_all};
ghost use Rattle.std.specs.Str.{bytes_eq};
ghost use Rattle.std.specs.Char.{is_ascii_digit};
ghost use Rattle.join_base.specs.Integer.{are_digits, value_of};
ghost use Rattle.join_base.specs.Text.{begins_word, goes_on_word};
ghost use Rattle.script_tokens.specs.Listed.{name_or};
ghost use Rattle.script_tokens.specs.Tokens.{is_blank, skip, word_kind, number_kind, symbol_at, plain_at, IsToken, IsQuotedToken, is_bad, AreTokens, AreFront, SomeList, OneList};

use crate::name::ScriptName;
use crate::token::{Kind, Mark, Token};
use join_base::{NoMemory, QuoteFault, byte_at, read_integer, read_quoted_text};
use std::alloc::Global;

fn is_blank(b: u8) -> bool
    ensures { result ≡ is_blank b }
{
    b == b' ' || b == b'\t' || b == b'\r' || b == b'\n'
}

fn begins_word(b: u8) -> bool
    ensures { result ≡ begins_word b }
{
    b.is_ascii_alphabetic() || b == b'_'
}

fn goes_on_word(b: u8) -> bool
    ensures { result ≡ goes_on_word b }
{
    begins_word(b) || b.is_ascii_digit()
}

// The first byte, and the others.
fn cut_first(text: &[u8]) -> Option<(u8, &[u8])>
    ensures { MatchOption result (text.now ≡ []) (λ p. text.now ≡ p.0 ∷ p.1.now) }
{
    match text {
        [] => None,
        [b, rest @ ..] => Some((*b, rest)),
    }
}

// The text behind blanks and comments.
#[tactic(auto, unfolding(crate::specs::Tokens::skip_from))]
pub fn skip(text: &[u8]) -> &[u8]
    ensures rest { result.now ≡ skip text.now }
    ensures shorter { length result.now ≤ length text.now }
{
    let mut inside = false;
    let mut rest = text;
    'skip: while let Some((b, more)) = cut_first(rest) {
        if inside {
            inside = b != b'\n';
        } else if b == b'/' && byte_at(more, 0) == b'/' {
            inside = true;
        } else if !is_blank(b) {
            return rest;
        }
        rest = more;
    }
    rest
}

// How many bytes of a word stand in front.
fn word_len(text: &[u8]) -> usize
    ensures value { result ≡ prefix_len goes_on_word text.now }
    ensures within { result ≤ length text.now }
    ensures some { 0 < length text.now → begins_word (slice_index text.now 0) ≡ true → 0 < result }
{
    text.iter().take_while(|b| goes_on_word(**b)).count()
}

fn digits_len(text: &[u8]) -> usize
    ensures value { result ≡ prefix_len is_ascii_digit text.now }
    ensures within { result ≤ length text.now }
    ensures some { 0 < length text.now → is_ascii_digit (slice_index text.now 0) ≡ true → 0 < result }
{
    text.iter().take_while(|b| b.is_ascii_digit()).count()
}

fn is_text(word: &[u8], text: &[u8]) -> bool
    ensures { result ≡ bytes_eq word.now text.now }
{
    word == text
}

#[tactic(auto, unfolding(crate::specs::Tokens::word_kind))]
fn word_of(alloc: Global, word: &[u8]) -> Result<Kind, NoMemory>
    requires begins { begins_word (slice_index word.now 0) ≡ true }
    requires goes_on { list_all goes_on_word word.now ≡ true }
    ensures { IfOk result (λ k. k ≡ word_kind word.now) }
{
    if is_text(word, b"message") {
        return Ok(Kind::Mark(Mark::Message));
    }
    if is_text(word, b"actor") {
        return Ok(Kind::Mark(Mark::Actor));
    }
    if is_text(word, b"when") {
        return Ok(Kind::Mark(Mark::When));
    }
    if is_text(word, b"if") {
        return Ok(Kind::Mark(Mark::If));
    }
    if is_text(word, b"print") {
        return Ok(Kind::Mark(Mark::Print));
    }
    if is_text(word, b"post") {
        return Ok(Kind::Mark(Mark::Post));
    }
    if is_text(word, b"stop") {
        return Ok(Kind::Mark(Mark::Stop));
    }
    if is_text(word, b"int") {
        return Ok(Kind::Mark(Mark::Int));
    }
    if is_text(word, b"text") {
        return Ok(Kind::Mark(Mark::Text));
    }
    if is_text(word, b"within") {
        return Ok(Kind::Mark(Mark::Within));
    }
    if is_text(word, b"reply") {
        return Ok(Kind::Mark(Mark::Reply));
    }
    if is_text(word, b"_") {
        return Ok(Kind::Mark(Mark::Blank));
    }
    if word.len() <= 64 {
        let name = ScriptName::from_bytes(alloc, word)?;
        return Ok(Kind::Name(name));
    }
    Ok(Kind::Bad)
}

#[tactic(auto, unfolding(crate::specs::Tokens::symbol_at))]
fn symbol_at(a: u8, b: u8) -> (Kind, usize)
    ensures value { result ≡ symbol_at a b }
    ensures some { 0 < result.1 }
    ensures short { result.1 ≤ 2 }
    ensures two { result.1 ≡ 2 → 0 < b }
{
    match (a, b) {
        (b'{', _) => (Kind::Mark(Mark::OpenBrace), 1),
        (b'}', _) => (Kind::Mark(Mark::CloseBrace), 1),
        (b'(', _) => (Kind::Mark(Mark::Open), 1),
        (b')', _) => (Kind::Mark(Mark::Close), 1),
        (b',', _) => (Kind::Mark(Mark::Comma), 1),
        (b':', _) => (Kind::Mark(Mark::Colon), 1),
        (b';', _) => (Kind::Mark(Mark::Semicolon), 1),
        (b'+', _) => (Kind::Mark(Mark::Plus), 1),
        (b'-', _) => (Kind::Mark(Mark::Minus), 1),
        (b'&', b'&') => (Kind::Mark(Mark::And), 2),
        (b'&', _) => (Kind::Mark(Mark::With), 1),
        (b'!', b'=') => (Kind::Mark(Mark::NotEqual), 2),
        (b'!', _) => (Kind::Mark(Mark::Not), 1),
        (b'<', b'=') => (Kind::Mark(Mark::LessEqual), 2),
        (b'<', _) => (Kind::Mark(Mark::Less), 1),
        (b'>', b'=') => (Kind::Mark(Mark::GreaterEqual), 2),
        (b'>', _) => (Kind::Mark(Mark::Greater), 1),
        (b'|', b'|') => (Kind::Mark(Mark::Or), 2),
        (b'=', b'=') => (Kind::Mark(Mark::Equal), 2),
        _ => (Kind::Bad, 1),
    }
}

// The number that digits stand for, where it is at most the greatest `i64`.
fn number_of(digits: &[u8]) -> Kind
    requires { are_digits digits.now ≡ true }
    ensures { result ≡ number_kind (value_of digits.now) }
{
    match read_integer(digits) {
        Some(value) => Kind::Number(value),
        None => Kind::Bad,
    }
}

// The word, number or symbol at the front of a text, and its length.
#[tactic(auto, unfolding(crate::specs::Tokens::plain_at), using(crate::proofs::WordLemmas::word_in_front, crate::proofs::WordLemmas::digits_in_front))]
fn plain_at(alloc: Global, text: &[u8]) -> Result<(Kind, usize), NoMemory>
    requires { 0 < length text.now }
    ensures value { IfOk result (λ p. p ≡ plain_at text.now) }
    ensures fits { IfOk result (λ p. (0 < p.1) × (p.1 ≤ length text.now)) }
    ensures name { IfOk result (λ p. name_or (take p.1 text.now) p.0 ≡ take p.1 text.now) }
{
    let first = byte_at(text, 0);
    if begins_word(first) {
        let n = word_len(text);
        let kind = word_of(alloc, &text[..n])?;
        return Ok((kind, n));
    }
    if first.is_ascii_digit() {
        let n = digits_len(text);
        return Ok((number_of(&text[..n]), n));
    }
    Ok(symbol_at(first, byte_at(text, 1)))
}

// The quoted text at the front, and its length.
fn quoted_at(alloc: Global, text: &[u8]) -> Result<(Kind, usize), NoMemory>
    requires { 0 < length text.now }
    ensures token { IfOk result (λ p. IsQuotedToken text.now p.0 (drop p.1 text.now)) }
    ensures fits { IfOk result (λ p. (0 < p.1) × (p.1 ≤ length text.now)) }
    ensures name { IfOk result (λ p. name_or (take p.1 text.now) p.0 ≡ take p.1 text.now) }
{
    match read_quoted_text(alloc, text, 0) {
        Ok((words, end)) => Ok((Kind::Words(words), end)),
        Err(QuoteFault::BadQuote) => Ok((Kind::Bad, text.len())),
        Err(QuoteFault::NoMemory) => Err(NoMemory),
    }
}

// The token at the front of a text, and its length. A name is all of it.
pub fn token_at(alloc: Global, text: &[u8]) -> Result<(Kind, usize), NoMemory>
    requires { 0 < length text.now }
    ensures token { IfOk result (λ p. IsToken text.now p.0 (drop p.1 text.now)) }
    ensures fits { IfOk result (λ p. (0 < p.1) × (p.1 ≤ length text.now)) }
    ensures name { IfOk result (λ p. name_or (take p.1 text.now) p.0 ≡ take p.1 text.now) }
{
    if byte_at(text, 0) == b'"' {
        quoted_at(alloc, text)
    } else {
        plain_at(alloc, text)
    }
}

/// Appends the tokens that stand at the front of the rest of a text, each with its place. The answer is the rest behind
/// them, and then they are `count`; or `None` where the text has no more tokens, and then they are at most `count`.
/// Where no token begins, the last one is `Bad`. After `NoMemory` those that stood there before stand there still, and
/// at most `count` behind them.
#[tactic(auto, using(crate::proofs::ListLemmas::kept_more))]
pub fn push_tokens<'a>(
    alloc: Global,
    tokens: &mut Vec<Token>,
    text: &[u8],
    rest: &'a [u8],
    count: usize,
) -> Result<Option<&'a [u8]>, NoMemory>
    requires within { length rest.now ≤ length text.now }
    requires front { AreFront text.now tokens.old.items rest.now }
    ensures pushed { IfOk result (λ next. MatchOption next (AreTokens (length text.now) text.now tokens.new.items)
        (λ r. AreFront text.now tokens.new.items r.now)) }
    ensures shorter { IfOk result (λ next. MatchOption next ⊤ (λ r. length r.now + count ≤ length rest.now)) }
    ensures few { length tokens.new.items ≤ length tokens.old.items + count }
    ensures as_many { IfOk result (λ next. MatchOption next ⊤ (λ r. length tokens.new.items
        ≡ length tokens.old.items + count)) }
    ensures kept { take (length tokens.old.items) tokens.new.items ≡ tokens.old.items }
{
    let mut left = rest;
    for _ in 0..count {
        let front = skip(left);
        if front.is_empty() {
            return Ok(None);
        }
        let place = (text.len() - front.len()) as u64;
        let (kind, length) = token_at(alloc, front)?;
        let is_bad = kind.is_bad();
        tokens.push(Token { place, kind })?;
        if is_bad {
            return Ok(None);
        }
        left = front.split_at(length).1;
    }
    Ok(Some(left))
}

/// A text has one list of tokens.
pub fn one_list()
    ensures some { SomeList }
    ensures one { OneList }
{
    join_base::quoted_law();
    join_base::quoted_or_none();
}
