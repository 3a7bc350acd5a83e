ghost use Rattle.std.specs.Prelude.{◌≡◌, ◌+◌, ◌<◌, ◌≤◌, ◌^◌, ◌++◌, false, IfErr, IfOk, IfSome, None, OnOk, Some, fold, length, take, true};
ghost use Rattle.std.specs.List.{prefix_len};
ghost use Rattle.smv_token.specs.Numbers.{at_most, is_decimal, radix_of, value_after, width_of};
ghost use Rattle.smv_token.specs.Scans.{Fits, is_named, scan_of};
ghost use Rattle.smv_token.specs.Tokens.{after, begins_name, cut_name, continues_name, digit_piece, digits_at, goes_on, is_blank, is_in_line, number_at, piece_at, run_kind, scanned, start, token_of, word_at, word_of_width};

use crate::left_out::{LeftOut, left_out};
use crate::mark::{Mark, symbol_at, word_of};
use crate::number::{Base, greatest, is_decimal, is_digit_in, value_of, width_of, word_head};
use smv_tree::{Name, Place, WordVal};
use std::alloc::{AllocError, Global};

/// What a token is.
#[derive(Debug, Drop)]
pub enum Lexeme {
    Mark(Mark),
    Name(Name),
    Number(u64),
    Word(WordVal),
}

/// A token, and the place of its first byte.
#[derive(Debug, Drop)]
pub struct Token {
    pub place: Place,
    pub lexeme: Lexeme,
}

/// What a part of a text is: blanks or a comment, a symbol or a reserved word, a name, a number or a
/// word constant.
#[derive(Clone, Copy, Debug)]
pub enum Piece {
    Gap,
    Mark(Mark),
    Name,
    Number(u64),
    Word(WordVal),
}

/// Why a place in a text begins no token.
#[derive(Clone, Copy, Debug)]
pub enum Flaw {
    /// A byte that begins no token.
    BadByte,
    /// A word constant that is not completed, or whose value does not fit its width.
    BadWord,
    /// A number from 2 to the 63rd on.
    NumberRange,
    /// A reserved word without use here.
    LeftOut(LeftOut),
    /// A name of more than 255 bytes.
    LongName,
}

/// The tokens of a text up to its end or to what is no token, and the place of its end.
#[derive(Debug, Drop)]
pub struct ScannedText {
    pub tokens: Vec<Token>,
    pub stop: Option<(Place, Flaw)>,
    pub end: Place,
}

fn is_blank(byte: u8) -> bool
    ensures { result ≡ is_blank byte }
{
    byte == b' ' || byte == b'\t' || byte == b'\r' || byte == b'\n'
}

fn begins_name(byte: u8) -> bool
    ensures { result ≡ begins_name byte }
{
    matches!(byte, b'A'..=b'Z' | b'a'..=b'z' | b'_')
}

fn continues_name(byte: u8) -> bool
    ensures { result ≡ continues_name byte }
{
    begins_name(byte) || matches!(byte, b'0'..=b'9' | b'$' | b'#' | b'-')
}

/// How many bytes at the front may stand in a name.
#[tactic(auto, using(crate::proofs::Scanning::front_within))]
fn name_len(bytes: &[u8]) -> usize
    ensures within { result ≤ length bytes.now }
    ensures len { result ≡ prefix_len continues_name bytes.now }
{
    bytes.iter().take_while(|b| continues_name(**b)).count()
}

/// How many bytes there are before the end of the line.
#[tactic(auto, using(crate::proofs::Scanning::front_within))]
fn line_len(bytes: &[u8]) -> usize
    ensures within { result ≤ length bytes.now }
    ensures len { result ≡ prefix_len is_in_line bytes.now }
{
    bytes.iter().take_while(|b| **b != b'\n').count()
}

/// How many bytes at the front are decimal digits.
#[tactic(auto, using(crate::proofs::Scanning::front_within))]
fn decimal_len(bytes: &[u8]) -> usize
    ensures within { result ≤ length bytes.now }
    ensures len { result ≡ prefix_len is_decimal bytes.now }
{
    bytes.iter().take_while(|b| is_decimal(**b)).count()
}

/// How many bytes at the front are digits of the base or underscores.
#[tactic(auto, using(crate::proofs::Scanning::front_within))]
fn digits_len(base: Base, bytes: &[u8]) -> usize
    ensures within { result ≤ length bytes.now }
    ensures len { result ≡ prefix_len (goes_on base) bytes.now }
{
    let radix = base.radix();
    bytes
        .iter()
        .take_while(|b| is_digit_in(radix, **b) || **b == b'_')
        .count()
}

/// What a longest run of name bytes is.
#[tactic(auto, unfolding(crate::specs::Tokens::run_kind))]
fn run_kind(run: &[u8]) -> Result<Piece, Flaw>
    ensures short { IfOk result (λ k. is_named k ≡ true → length run.now ≤ 255) }
    ensures kind { result ≡ run_kind run.now }
{
    if let Some(mark) = word_of(run) {
        return Ok(Piece::Mark(mark));
    }
    if let Some(word) = left_out(run) {
        return Err(Flaw::LeftOut(word));
    }
    if run.len() <= 255 {
        Ok(Piece::Name)
    } else {
        Err(Flaw::LongName)
    }
}

/// The word constant of a width, if its digits fit it.
fn word_of_width(signed: bool, base: Base, digits: &[u8], width: Option<u8>) -> Result<Piece, Flaw>
    requires { IfSome width (λ w. w ≤ 128) }
    ensures plain { IfOk result (λ k. is_named k ≡ false) }
    ensures kind { result ≡ word_of_width signed base digits.now width }
{
    let Some(width) = width else {
        return Err(Flaw::BadWord);
    };
    if width == 0 {
        return Err(Flaw::BadWord);
    }
    let Some(bits) = value_of(digits, base.radix(), greatest(width)) else {
        return Err(Flaw::BadWord);
    };
    Ok(Piece::Word(WordVal::new(signed, width, bits)))
}

/// A word constant from its first digit on.
#[tactic(auto, unfolding(crate::specs::Tokens::digits_at), using(crate::proofs::Scanning::front_some))]
fn digits_at(
    signed: bool,
    base: Base,
    len: usize,
    written: &[u8],
    bytes: &[u8],
) -> Result<(usize, Piece), Flaw>
    requires { len + length bytes.now < 2 ^ 64 }
    ensures plain { IfOk result (λ k. is_named k.1 ≡ false) }
    ensures some { IfOk result (λ k. len ≤ k.0) }
    ensures within { IfOk result (λ k. k.0 ≤ len + length bytes.now) }
    ensures kind { result ≡ digits_at signed base len written.now bytes.now }
{
    let Some(first) = bytes.first() else {
        return Err(Flaw::BadWord);
    };
    if !is_digit_in(base.radix(), *first) {
        return Err(Flaw::BadWord);
    }
    let count = digits_len(base, bytes);
    let digits = &bytes[..count];
    let piece = word_of_width(signed, base, digits, width_of(base, written, digits))?;
    Ok((len + count, piece))
}

/// A word constant behind its head of a length.
#[tactic(auto, unfolding(crate::specs::Tokens::word_at))]
fn word_at(signed: bool, base: Base, len: usize, bytes: &[u8]) -> Result<(usize, Piece), Flaw>
    requires { len + length bytes.now < 2 ^ 64 }
    ensures plain { IfOk result (λ k. is_named k.1 ≡ false) }
    ensures some { IfOk result (λ k. len ≤ k.0) }
    ensures within { IfOk result (λ k. k.0 ≤ len + length bytes.now) }
    ensures kind { result ≡ word_at signed base len bytes.now }
{
    let count = decimal_len(bytes);
    let (written, rest) = bytes.split_at(count);
    let [line, digits @ ..] = rest else {
        return Err(Flaw::BadWord);
    };
    if *line != b'_' {
        return Err(Flaw::BadWord);
    }
    digits_at(signed, base, len + count + 1, written, digits)
}

/// A number.
#[tactic(auto, unfolding(crate::specs::Tokens::number_at))]
fn number_at(bytes: &[u8]) -> Result<(usize, Piece), Flaw>
    ensures plain { IfOk result (λ k. is_named k.1 ≡ false) }
    ensures some { IfOk result (λ k. k.0 ≡ prefix_len is_decimal bytes.now) }
    ensures within { IfOk result (λ k. k.0 ≤ length bytes.now) }
    ensures kind { result ≡ number_at bytes.now }
{
    let len = decimal_len(bytes);
    let Some(number) = value_of(&bytes[..len], 10, 9223372036854775807) else {
        return Err(Flaw::NumberRange);
    };
    Ok((len, Piece::Number(number as u64)))
}
/// What begins with a digit.
#[tactic(auto, unfolding(crate::specs::Tokens::digit_piece))]
fn digit_piece(bytes: &[u8]) -> Result<(usize, Piece), Flaw>
    requires { 1 ≤ prefix_len is_decimal bytes.now }
    ensures plain { IfOk result (λ k. is_named k.1 ≡ false) }
    ensures some { IfOk result (λ k. 1 ≤ k.0) }
    ensures within { IfOk result (λ k. k.0 ≤ length bytes.now) }
    ensures kind { result ≡ digit_piece bytes.now }
{
    if bytes.starts_with(b"0") {
        if let Some((signed, base, len)) = word_head(&bytes[1..]) {
            return word_at(signed, base, len, &bytes[len..]);
        }
    }
    number_at(bytes)
}

/// The length and the kind of what the bytes begin with.
#[tactic(auto, unfolding(crate::specs::Tokens::piece_at), using(crate::proofs::Scanning::front_some))]
fn piece_at(bytes: &[u8]) -> Result<(usize, Piece), Flaw>
    ensures fits { IfOk result (λ k. Fits bytes.now k) }
    ensures kind { result ≡ piece_at bytes.now }
{
    let Some(first) = bytes.first() else {
        return Err(Flaw::BadByte);
    };
    if is_blank(*first) {
        return Ok((1, Piece::Gap));
    }
    if bytes.starts_with(b"--") {
        return Ok((line_len(bytes), Piece::Gap));
    }
    if bytes.starts_with(b"/--") {
        return Err(Flaw::BadByte);
    }
    if begins_name(*first) {
        let len = name_len(bytes);
        let kind = run_kind(&bytes[..len])?;
        return Ok((len, kind));
    }
    if is_decimal(*first) {
        return digit_piece(bytes);
    }
    let Some(mark) = symbol_at(bytes) else {
        return Err(Flaw::BadByte);
    };
    Ok((mark.text().len(), Piece::Mark(mark)))
}

/// The place after a byte.
fn after(place: Place, byte: u8) -> Place
    ensures { result ≡ after place byte }
{
    if byte == b'\n' {
        Place {
            line: place.line.saturating_add(1),
            column: 1,
        }
    } else {
        Place {
            line: place.line,
            column: place.column.saturating_add(1),
        }
    }
}

/// The place after these bytes.
fn after_all(place: Place, bytes: &[u8]) -> Place
    ensures { result ≡ fold after place bytes.now }
{
    let mut place = place;
    for byte in bytes {
        place = after(place, *byte);
    }
    place
}

/// Adds the token of a piece with these bytes, if it is one.
#[tactic(auto, unfolding(crate::specs::Tokens::token_of))]
fn push_token(
    alloc: Global,
    tokens: &mut Vec<Token>,
    place: Place,
    piece: Piece,
    text: &[u8],
) -> Result<(), AllocError>
    requires some { 1 ≤ length text.now }
    requires short { is_named piece ≡ true → length text.now ≤ 255 }
    ensures { OnOk result (tokens.new.items ≡ tokens.old.items ++ token_of place piece text.now) }
{
    let lexeme = match piece {
        Piece::Gap => return Ok(()),
        Piece::Mark(mark) => Lexeme::Mark(mark),
        Piece::Name => Lexeme::Name(Name::from_vec(Vec::from_slice(alloc, text)?)),
        Piece::Number(number) => Lexeme::Number(number),
        Piece::Word(word) => Lexeme::Word(word),
    };
    tokens.push(Token { place, lexeme })?;
    Ok(())
}

/// The first bytes of a name that is too long.
fn cut(name: &[u8]) -> &[u8]
    requires { 1 ≤ length name.now }
    ensures front { result.now ≡ take 255 name.now }
    ensures some { 1 ≤ length result.now }
    ensures short { length result.now ≤ 255 }
{
    if name.len() <= 255 {
        return name;
    }
    &name[..255]
}

/// Adds a name that is too long, by its first bytes.
fn push_cut_name(
    alloc: Global,
    tokens: &mut Vec<Token>,
    place: Place,
    flaw: Flaw,
    rest: &[u8],
) -> Result<(), AllocError>
    requires { 1 ≤ length rest.now }
    ensures { OnOk result (tokens.new.items ≡ tokens.old.items ++ cut_name place rest.now flaw) }
{
    let Flaw::LongName = flaw else {
        return Ok(());
    };
    push_token(alloc, tokens, place, Piece::Name, cut(rest))
}

/// The tokens of a text up to its end or to what is no token. A name that is too long is the last of
/// them.
///
/// # Errors
///
/// `AllocError` where memory is refused.
#[tactic(auto, using(crate::proofs::Scanning::no_piece, crate::proofs::Scanning::all_read))]
pub fn scan(alloc: Global, bytes: &[u8]) -> Result<ScannedText, AllocError>
    ensures tokens { IfOk result (λ s. scan_of s ≡ scanned bytes.now) }
    ensures end { IfOk result (λ s. s.stop ≡ None → s.end ≡ fold after start bytes.now) }
{
    let mut tokens = Vec::new(alloc);
    let mut place = Place { line: 1, column: 1 };
    let mut rest = bytes;
    while !rest.is_empty() {
        match piece_at(rest) {
            Ok((len, piece)) => {
                let (text, next) = rest.split_at(len);
                push_token(alloc, &mut tokens, place, piece, text)?;
                place = after_all(place, text);
                rest = next;
            }
            Err(flaw) => {
                push_cut_name(alloc, &mut tokens, place, flaw, rest)?;
                let stop = Some((place, flaw));
                return Ok(ScannedText {
                    tokens,
                    stop,
                    end: place,
                });
            }
        }
    }
    Ok(ScannedText {
        tokens,
        stop: None,
        end: place,
    })
}
