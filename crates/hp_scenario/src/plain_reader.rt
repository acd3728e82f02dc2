//! Reads plain JSON texts: their strings have no escapes, and their numbers are above 0 and have
//! only digits. Takes tokens off the front of the text, and allocates nothing.
ghost use Rattle.std.specs.Prelude.{◌≡◌, ◌≢◌, ◌∷◌, ◌<◌, ◌⊎◌, [], drop, length, true, IfSome, IsTrue};
ghost use Rattle.std.specs.Bool.{MatchBool};
ghost use Rattle.json.specs.Lex.{between, lex, may_begin, may_close, token, tokens};
ghost use Rattle.json.specs.Reads.{token_of};
ghost use Rattle.json.specs.Token.{end_array, string};
ghost use Rattle.json.specs.Word.{head};
ghost use Rattle.hp_scenario.specs.PlainReader.{IsFound, place_of, tokens_at};

use crate::plain_runs::{digits_end, plain_end};
use json::Token;
use std::marker::Model;

/// Where a reader is among the values of an array or the members of an object.
#[derive(Clone, Copy, Drop)]
pub(crate) enum Place {
    /// Before the first value or member, or after a key.
    Fresh,
    /// After a value or member.
    AfterValue,
    /// After a value or member and its comma.
    AfterComma,
}

impl Place {
    /// Returns whether a value or a key may begin here.
    #[inline(always)]
    fn may_begin(self) -> bool
        ensures { result ≡ may_begin (place_of self) }
    {
        !matches!(self, Place::AfterValue)
    }

    /// Returns whether the array or the object may close here.
    #[inline(always)]
    fn may_close(self) -> bool
        ensures { result ≡ may_close (place_of self) }
    {
        !matches!(self, Place::AfterComma)
    }
}

/// A token, and what comes after it.
#[derive(Drop)]
pub(crate) struct Found<'a> {
    token: Token<'a>,
    place: Place,
    rest: &'a str,
}

/// The rest of a text. In contracts, its value is the list of the tokens that are still to come.
#[derive(Drop)]
pub(crate) struct PlainReader<'a> {
    rest: &'a str,
    place: Place,
}

impl<'a> Model for PlainReader<'a> {
    ghost use Rattle.std.specs.Prelude.{List};
    ghost use Rattle.std.specs.Str.{IsUtf8};
    ghost use Rattle.json.specs.Token.{Token as SpecToken, tokens_code};
    ghost use Rattle.hp_scenario.specs.PlainReader.{tokens_at};

    ghost Value = { List SpecToken };

    ghost coded = { tokens_code };

    ghost view = { λ r. tokens_at r.place r.rest.now };

    ghost invariant = { λ r. IsUtf8 r.rest.now };
}

impl<'a> PlainReader<'a> {
    /// Returns a reader at the front of a text.
    pub(crate) fn new(text: &'a str) -> PlainReader<'a>
        ensures { result ≡ tokens text.now }
    {
        PlainReader {
            rest: text,
            place: Place::Fresh,
        }
    }

    /// Returns the next token. `None` means that the text has ended, has a fault, or goes on with a
    /// token that is not plain.
    #[inline(always)]
    pub(crate) fn next(&mut self) -> Option<Token<'a>>
        ensures value { IfSome result (λ t. self.old ≡ token_of t ∷ self.new) }
    {
        let (place, text) = past_comma(self.place, self.rest);
        match token_at(place, text) {
            Some(found) => {
                self.place = found.place;
                self.rest = found.rest;
                Some(found.token)
            }
            None => None,
        }
    }

    /// Takes the bracket that closes an array, if it is next. Returns whether it was.
    pub(crate) fn take_end_array(&mut self) -> bool
        ensures { MatchBool result (self.old ≡ end_array ∷ self.new) (self.new ≡ self.old) }
    {
        let (place, text) = past_comma(self.place, self.rest);
        if byte_of(text) != b']' || !place.may_close() {
            return false;
        }
        self.place = Place::AfterValue;
        self.rest = rest_of(text);
        true
    }

    /// Returns `true` only if no token is left; `false` does not mean that one is.
    pub(crate) fn is_at_end(&self) -> bool
        ensures { IsTrue result → self.now ≡ [] }
    {
        self.place.may_close() && after_blanks(self.rest).is_empty()
    }
}

/// Returns the first byte of a text, or a space if it is empty.
#[inline(always)]
fn byte_of(text: &str) -> u8
    ensures is { result ≡ head text.now }
    ensures some { result ≢ 32 → 0 < length text.now }
{
    let bytes = text.as_bytes();
    if bytes.is_empty() { b' ' } else { bytes[0] }
}

/// Returns a text without its first byte, which must be an ASCII character.
#[inline(always)]
#[tactic(auto, using(crate::proofs::PlainTokens::second_is_boundary))]
fn rest_of<'a>(text: &'a str) -> &'a str
    requires some { 0 < length text.now }
    requires ascii { head text.now < 128 }
    ensures { result.now ≡ drop 1 text.now }
{
    &text[1..]
}

/// Returns a text without leading spaces and newlines.
#[inline(always)]
fn after_blanks<'a>(text: &'a str) -> &'a str
    ensures { lex between result.now ≡ lex between text.now }
{
    let mut rest = text;
    while !rest.is_empty() && is_blank(byte_of(rest)) {
        rest = rest_of(rest);
    }
    rest
}

/// Returns whether a byte is a space or a newline.
#[inline(always)]
fn is_blank(byte: u8) -> bool
    ensures { IsTrue result → (byte ≡ 32) ⊎ (byte ≡ 10) }
{
    byte == b' ' || byte == b'\n'
}

/// Returns whether a byte is a comma, or closes an array or an object.
#[inline(always)]
fn comes_after_value(byte: u8) -> bool
    ensures { IsTrue result → (byte ≡ 44) ⊎ ((byte ≡ 93) ⊎ (byte ≡ 125)) }
{
    byte == b',' || byte == b']' || byte == b'}'
}

/// Skips the comma that may follow a value. Returns the place, and the text from the next token on.
#[inline(always)]
fn past_comma<'a>(place: Place, text: &'a str) -> (Place, &'a str)
    ensures { tokens_at result.0 result.1.now ≡ tokens_at place text.now }
{
    let text = after_blanks(text);
    if byte_of(text) != b',' || place.may_begin() {
        return (place, text);
    }
    (Place::AfterComma, after_blanks(rest_of(text)))
}

/// Returns the plain token at the front of `text`. `None` may also mean a token that is not plain.
#[inline(always)]
fn token_at<'a>(place: Place, text: &'a str) -> Option<Found<'a>>
    ensures { IfSome result (λ f. IsFound (tokens_at place text.now) f) }
{
    if place.may_begin() {
        if let Some(found) = value_at(place, text) {
            return Some(found);
        }
    }
    if place.may_close() {
        return end_at(place, text);
    }
    None
}

/// Returns the first token of the value or the key at the front of `text`.
#[inline(always)]
fn value_at<'a>(place: Place, text: &'a str) -> Option<Found<'a>>
    requires { may_begin (place_of place) ≡ true }
    ensures { IfSome result (λ f. IsFound (tokens_at place text.now) f) }
{
    match byte_of(text) {
        b'"' => string_at(place, text),
        b'{' => Some(bracket(Token::BeginObject, Place::Fresh, text)),
        b'[' => Some(bracket(Token::BeginArray, Place::Fresh, text)),
        _ => number_at(place, text),
    }
}

/// Returns the closing bracket of an array or an object at the front of `text`.
#[inline(always)]
fn end_at<'a>(place: Place, text: &'a str) -> Option<Found<'a>>
    requires { may_close (place_of place) ≡ true }
    ensures { IfSome result (λ f. IsFound (tokens_at place text.now) f) }
{
    match byte_of(text) {
        b']' => Some(bracket(Token::EndArray, Place::AfterValue, text)),
        b'}' => Some(bracket(Token::EndObject, Place::AfterValue, text)),
        _ => None,
    }
}

/// Returns `token`, the one byte at the front of `text`, with the `place` after it.
#[inline(always)]
fn bracket<'a>(token: Token<'a>, place: Place, text: &'a str) -> Found<'a>
    requires some { 0 < length text.now }
    requires ascii { head text.now < 128 }
    ensures { token_of result.token ∷ tokens_at result.place result.rest.now
        ≡ token_of token.entry ∷ tokens_at place (drop 1 text.now) }
{
    let rest = rest_of(text);
    Found { token, place, rest }
}

/// Returns the key or the string at the front of `text`.
#[inline(always)]
#[tactic(auto, using(crate::proofs::PlainTokens::as_key))]
fn string_at<'a>(place: Place, text: &'a str) -> Option<Found<'a>>
    requires at { head text.now ≡ 34 }
    requires place { may_begin (place_of place) ≡ true }
    ensures { IfSome result (λ f. IsFound (tokens_at place text.now) f) }
{
    let Some((string, rest)) = cut_string(text) else {
        return None;
    };
    let next = byte_of(rest);
    if next == b':' {
        return Some(Found {
            token: Token::Key(string),
            place: Place::Fresh,
            rest: rest_of(rest),
        });
    }
    if !comes_after_value(next) {
        return None;
    }
    Some(Found {
        token: Token::String(string),
        place: Place::AfterValue,
        rest,
    })
}

/// Returns the string at the front of `text`, without its quotes, and what comes after the string
/// and any blanks.
#[inline(always)]
fn cut_string<'a>(text: &'a str) -> Option<(&'a str, &'a str)>
    requires { head text.now ≡ 34 }
    ensures { IfSome result (λ cut.
        lex between text.now ≡ token (string cut.0.now) ∷ lex between cut.1.now) }
{
    let bytes = text.as_bytes();
    let end = plain_end(bytes, 1);
    if end >= bytes.len() || bytes[end] != b'"' {
        return None;
    }
    Some((&text[1..end], after_blanks(&text[end + 1..])))
}

/// Returns the number at the front of `text`, if it has only digits, does not begin with 0, and a
/// comma follows.
fn number_at<'a>(place: Place, text: &'a str) -> Option<Found<'a>>
    requires { may_begin (place_of place) ≡ true }
    ensures { IfSome result (λ f. IsFound (tokens_at place text.now) f) }
{
    let bytes = text.as_bytes();
    let end = digits_end(bytes);
    if end == 0 || end >= bytes.len() || bytes[0] == b'0' || bytes[end] != b',' {
        return None;
    }
    Some(Found {
        token: Token::Number(&text[..end]),
        place: Place::AfterValue,
        rest: &text[end..],
    })
}
