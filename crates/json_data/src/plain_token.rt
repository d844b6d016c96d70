//! The tokens of a text in which blanks alone stand before a token, and nothing in a string is escaped: each
//! is read where it stands, and where a text isn't so, that is all that is said of it.
ghost use Rattle.std.specs.Prelude.{◌≡◌, ◌<◌, ◌≤◌, ◌⊎◌, ◌+◌, ◌&&◌, ◌==◌, cond, ℕ, IsTrue, IfOk, IfSome, length, take, drop, get_or, false, true};
ghost use Rattle.std.specs.Str.{bytes_eq, IsCharBoundary};
ghost use Rattle.json.specs.Token.{end_array, end_object, key};
ghost use Rattle.json.specs.Print.{begins};
ghost use Rattle.json.specs.Reads.{token_of};
ghost use Rattle.json.specs.Run.{is_plain};
ghost use Rattle.json_data.specs.Plain.{ArePlain, IsPlainUpTo, IsGapUpTo, IsMark, IsWordText, IsLexeme, IsNextToken};

use crate::unread::Unread;
use json::{Token, is_number};

/// The next token and where it ends. Where a value has just `ended`, a comma stands before all but a bracket
/// that closes, and else none.
#[inline(always)]
pub(crate) fn token_at<'a>(
    text: &'a str,
    from: usize,
    ended: bool,
) -> Result<(Token<'a>, usize), Unread>
    requires { from ≤ length text.now }
    ensures next { IfOk result (λ r. IsNextToken text.now from ended (token_of r.0) r.1) }
    ensures ahead { IfOk result (λ r. (from < r.1) × (r.1 ≤ length text.now)) }
{
    let comma = comma_at(text, from);
    let next = behind_gap(text, comma.1)?;
    if agree(needs_comma(next.0, ended), comma.0) {
        return Ok(next);
    }
    Err(Unread::NotPlain)
}

/// Whether a comma stands at a place, and the place after it, if it does.
#[inline(always)]
fn comma_at(text: &str, from: usize) -> (bool, usize)
    requires { from ≤ length text.now }
    ensures comma { result.0 ≡ (get_or text.now from 32 == 44) }
    ensures start { result.1 ≡ cond result.0 (from + 1) from }
    ensures within { (from ≤ result.1) × (result.1 ≤ length text.now) }
{
    if byte_at(text, from) == b',' {
        return (true, from + 1);
    }
    (false, from)
}

#[inline(always)]
fn agree(one: bool, other: bool) -> bool
    ensures { IsTrue result → one ≡ other }
{
    if one { other } else { !other }
}

/// Whether a comma has to stand before a token.
#[inline(always)]
fn needs_comma(token: Token<'_>, ended: bool) -> bool
    ensures { result ≡ (ended && begins (token_of token.entry)) }
{
    ended & begins_value(token)
}

/// Whether a token begins a value or a member, and so isn't a bracket that closes.
#[inline(always)]
fn begins_value(token: Token<'_>) -> bool
    ensures { result ≡ begins (token_of token.entry) }
{
    match token {
        Token::EndObject | Token::EndArray => false,
        _ => true,
    }
}

/// The token after the blanks from a place on.
#[inline(always)]
fn behind_gap<'a>(text: &'a str, from: usize) -> Result<(Token<'a>, usize), Unread>
    requires { from ≤ length text.now }
    ensures { IfOk result (λ r. IsNextToken text.now from false (token_of r.0) r.1) }
{
    let place = gap_end(text, from);
    lexeme_at(text, place)
}

/// Where the blanks from a place on end.
#[inline(always)]
pub(crate) fn gap_end(text: &str, from: usize) -> usize
    requires { from ≤ length text.now }
    ensures { IsGapUpTo text.now from result }
{
    let bytes = text.as_bytes();
    blanks_end(bytes, from)
}

#[inline(always)]
fn blanks_end(bytes: &[u8], from: usize) -> usize
    requires { from ≤ length bytes.now }
    ensures { IsGapUpTo bytes.now from result }
{
    let mut end = from;
    'gap: while end < bytes.len() {
        if !is_blank(bytes[end]) {
            return end;
        }
        end += 1;
    }
    end
}

#[inline(always)]
fn is_blank(byte: u8) -> bool
    ensures { IsTrue result → (byte ≡ 32) ⊎ (byte ≡ 10) }
{
    match byte {
        b' ' => true,
        b'\n' => true,
        _ => false,
    }
}

/// The byte at a place, or a blank after the end.
#[inline(always)]
fn byte_at(text: &str, place: usize) -> u8
    ensures { result ≡ get_or text.now place 32 }
{
    byte_of(text.as_bytes(), place)
}

#[inline(always)]
fn byte_of(bytes: &[u8], place: usize) -> u8
    ensures { result ≡ get_or bytes.now place 32 }
{
    if place < bytes.len() {
        bytes[place]
    } else {
        b' '
    }
}

/// The token that begins at a place, and where it ends.
#[inline(always)]
fn lexeme_at<'a>(text: &'a str, at: usize) -> Result<(Token<'a>, usize), Unread>
    requires { at ≤ length text.now }
    ensures { IfOk result (λ r. IsLexeme text.now at (token_of r.0) r.1) }
{
    let byte = byte_at(text, at);
    if byte == b'"' {
        return string_at(text, at);
    }
    match mark(byte) {
        Some(token) => Ok((token, at + 1)),
        None => word_at(text, at),
    }
}

#[inline(always)]
fn mark<'a>(byte: u8) -> Option<Token<'a>>
    ensures { IfSome result (λ t. IsMark byte (token_of t)) }
{
    match byte {
        b'{' => Some(Token::BeginObject),
        b'}' => Some(Token::EndObject),
        b'[' => Some(Token::BeginArray),
        b']' => Some(Token::EndArray),
        _ => None,
    }
}

/// The string or the key whose opening quote stands at a place.
#[inline(always)]
fn string_at<'a>(text: &'a str, at: usize) -> Result<(Token<'a>, usize), Unread>
    requires quote { get_or text.now at 32 ≡ 34 }
    requires within { at ≤ length text.now }
    ensures { IfOk result (λ r. IsLexeme text.now at (token_of r.0) r.1) }
{
    let inner = text_behind(text, at + 1)?;
    let size = plain_size(inner)?;
    let content = text_before(inner, size)?;
    let end = at + 1 + size + 1;
    if byte_at(text, end) == b':' {
        return Ok((Token::Key(content), end + 1));
    }
    Ok((Token::String(content), end))
}

/// How many bytes stand before the quote that closes a string, of which this is the text after the quote that
/// opens it.
#[inline(always)]
fn plain_size(text: &str) -> Result<usize, Unread>
    ensures plain { IfOk result (λ size. IsPlainUpTo text.now size) }
    ensures within { IfOk result (λ size. size < length text.now) }
{
    let bytes = text.as_bytes();
    plain_bytes(bytes)
}

#[inline(always)]
fn plain_bytes(bytes: &[u8]) -> Result<usize, Unread>
    ensures plain { IfOk result (λ size. IsPlainUpTo bytes.now size) }
    ensures within { IfOk result (λ size. size < length bytes.now) }
{
    let size = plain_end(bytes);
    if byte_of(bytes, size) == b'"' {
        return Ok(size);
    }
    Err(Unread::NotPlain)
}

/// How many bytes stand before the first that ends a string or has no place in it as it is.
#[inline(always)]
fn plain_end(bytes: &[u8]) -> usize
    ensures { ArePlain bytes.now result }
{
    let mut end = plain_blocks(bytes);
    'each: while end < bytes.len() {
        if !is_plain(bytes[end]) {
            return end;
        }
        end += 1;
    }
    end
}

/// How many bytes stand before the first block of 32 of which not all are there and plain.
#[inline(always)]
fn plain_blocks(bytes: &[u8]) -> usize
    ensures { ArePlain bytes.now result }
{
    let mut end = 0;
    'each: while end < bytes.len() {
        if !has_plain_block(bytes, end) {
            return end;
        }
        end += 32;
    }
    end
}

/// Whether 32 plain bytes stand from a place on.
#[inline(always)]
fn has_plain_block(bytes: &[u8], from: usize) -> bool
    requires { from ≤ length bytes.now }
    ensures { IsTrue result → (from + 32 ≤ length bytes.now)
        × ((k : ℕ) → k < 32 → is_plain (get_or bytes.now (from + k) 0) ≡ true) }
{
    match block_at(bytes, from) {
        Some(block) => are_plain(block),
        None => false,
    }
}

#[inline(always)]
fn block_at(bytes: &[u8], from: usize) -> Option<&[u8]>
    requires { from ≤ length bytes.now }
    ensures value { IfSome result (λ block. block.now ≡ take 32 (drop from bytes.now)) }
    ensures size { IfSome result (λ block. length block.now ≡ 32) }
    ensures room { IfSome result (λ block. from + 32 ≤ length bytes.now) }
{
    if bytes.len() - from < 32 {
        return None;
    }
    Some(&bytes[from..from + 32])
}

/// Whether all bytes are plain. It looks at each of them whatever it has found, so that several can be looked
/// at at once.
#[inline(always)]
fn are_plain(block: &[u8]) -> bool
    ensures { IsTrue result → (k : ℕ) → k < length block.now
        → is_plain (get_or block.now k 0) ≡ true }
{
    let mut all = true;
    for place in 0..block.len() {
        all = is_plain(block[place]) & all;
    }
    all
}

/// Whether a byte may stand in a string as it is: it is no quote, no backslash and no control byte.
#[inline(always)]
fn is_plain(byte: u8) -> bool
    ensures { result ≡ is_plain byte }
{
    !((byte == b'"') | (byte == b'\\') | (byte < b' '))
}

/// The number or the literal at a place.
#[inline(always)]
fn word_at<'a>(text: &'a str, at: usize) -> Result<(Token<'a>, usize), Unread>
    requires { at ≤ length text.now }
    ensures { IfOk result (λ r. IsLexeme text.now at (token_of r.0) r.1) }
{
    let back = text_behind(text, at)?;
    let size = word_size(back);
    if size == 0 {
        return Err(Unread::NotPlain);
    }
    let word = text_before(back, size)?;
    match word_token(word) {
        Some(token) => Ok((token, at + size)),
        None => Err(Unread::NotPlain),
    }
}

/// How many bytes stand before the first that is no part of a number or of a literal.
#[inline(always)]
fn word_size(text: &str) -> usize
    ensures { result ≤ length text.now }
{
    let bytes = text.as_bytes();
    letters(bytes)
}

#[inline(always)]
fn letters(bytes: &[u8]) -> usize
    ensures { result ≤ length bytes.now }
{
    let mut size = 0;
    'word: while size < bytes.len() {
        if !is_letter(bytes[size]) {
            return size;
        }
        size += 1;
    }
    size
}

#[inline(always)]
fn is_letter(byte: u8) -> bool {
    match byte {
        b'0'..=b'9' | b'a'..=b'z' | b'-' | b'+' | b'.' | b'E' => true,
        _ => false,
    }
}

#[inline(always)]
fn word_token<'a>(word: &'a str) -> Option<Token<'a>>
    ensures { IfSome result (λ t. IsWordText word.now (token_of t)) }
{
    if is_number(word) {
        return Some(Token::Number(word));
    }
    literal(word)
}

#[tactic(auto, using(crate::proofs::PlainBytes::true_word, crate::proofs::PlainBytes::false_word, crate::proofs::PlainBytes::null_word))]
fn literal<'a>(word: &str) -> Option<Token<'a>>
    ensures { IfSome result (λ t. IsWordText word.now (token_of t)) }
{
    if is_word(word, "true") {
        return Some(Token::Bool(true));
    }
    if is_word(word, "false") {
        return Some(Token::Bool(false));
    }
    if is_word(word, "null") {
        return Some(Token::Null);
    }
    None
}

fn is_word(word: &str, name: &str) -> bool
    ensures { result ≡ bytes_eq word.now name.now }
{
    word == name
}

#[inline(always)]
fn text_behind<'a>(text: &'a str, place: usize) -> Result<&'a str, Unread>
    ensures back { IfOk result (λ s. s.now ≡ drop place text.now) }
    ensures size { IfOk result (λ s. length s.now + place ≡ length text.now) }
    ensures cut { IfOk result (λ s. IsCharBoundary text.now place) }
{
    match text.split_at_checked(place) {
        Some(parts) => Ok(parts.1),
        None => Err(Unread::NotPlain),
    }
}

#[inline(always)]
fn text_before<'a>(text: &'a str, place: usize) -> Result<&'a str, Unread>
    ensures front { IfOk result (λ s. s.now ≡ take place text.now) }
    ensures cut { IfOk result (λ s. IsCharBoundary text.now place) }
{
    match text.split_at_checked(place) {
        Some(parts) => Ok(parts.0),
        None => Err(Unread::NotPlain),
    }
}

#[inline(always)]
pub(crate) fn closes_array(token: Token<'_>) -> bool
    ensures { IsTrue result → token_of token.entry ≡ end_array }
{
    match token {
        Token::EndArray => true,
        _ => false,
    }
}

#[inline(always)]
pub(crate) fn closes_object(token: Token<'_>) -> bool
    ensures { IsTrue result → token_of token.entry ≡ end_object }
{
    match token {
        Token::EndObject => true,
        _ => false,
    }
}

/// The name that a key is.
#[inline(always)]
pub(crate) fn key_name<'a>(token: Token<'a>) -> Result<&'a str, Unread>
    ensures { IfOk result (λ s. token_of token.entry ≡ key s.now) }
{
    match token {
        Token::Key(name) => Ok(name),
        _ => Err(Unread::NotPlain),
    }
}
