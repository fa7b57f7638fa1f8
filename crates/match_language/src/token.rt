//! Tokens, and the one at the front of a text.
ghost use Rattle.std.specs.Prelude.{◌≡◌, ◌<◌, ◌≤◌, ◌+◌, ◌≢◌, length};
ghost use Rattle.ovn_base.specs.names.NameText.{name_byte};
ghost use Rattle.match_language.specs.Tokens as spec;

use crate::constant::{decimal_value, dotted_value, ether_value, hex_value};
use crate::expr::Rel;
use crate::field::{Field, Predicate};
use ovn_base::name::Name;

/// A token. Words and constants are told apart here, so that the reader only looks at variants.
#[derive(Clone, Copy)]
pub(crate) enum Token {
    Open,
    Close,
    OpenBrace,
    CloseBrace,
    Comma,
    Slash,
    Bang,
    And,
    Or,
    Relation(Rel),
    /// `0` or `1`, which may be a term or a constant.
    Bit(bool),
    /// Another decimal number.
    Number(u64),
    /// A hexadecimal number.
    Hex(u64),
    /// An IPv4 address.
    Dotted(u64),
    /// An Ethernet address.
    Ether(u64),
    /// A constant in none of these forms.
    BadConstant,
    Predicate(Predicate),
    Field(Field),
    /// Another word.
    Unknown,
    /// A quoted string.
    Text,
    /// `$NAME`.
    Set(Name),
    /// `@NAME`.
    Group(Name),
    /// A byte at which no token begins.
    Bad,
    End,
}

#[tactic(auto, unfolding(crate::specs::Tokens::address_token))]
fn address_token(word: &[u8]) -> Token
    ensures { result ≡ spec.address_token word.now }
{
    if let Some(number) = dotted_value(word) {
        return Token::Dotted(number);
    }
    if let Some(number) = ether_value(word) {
        return Token::Ether(number);
    }
    match hex_value(word) {
        Some(number) => Token::Hex(number),
        None => Token::BadConstant,
    }
}

#[tactic(auto, unfolding(crate::specs::Tokens::constant_token))]
fn constant_token(word: &[u8]) -> Token
    ensures { result ≡ spec.constant_token word.now }
{
    if word == b"0".as_slice() {
        return Token::Bit(false);
    }
    if word == b"1".as_slice() {
        return Token::Bit(true);
    }
    match decimal_value(word) {
        Some(number) => Token::Number(number),
        None => address_token(word),
    }
}

fn has_colon(word: &[u8]) -> bool
    ensures { result ≡ spec.has_colon word.now }
{
    word.iter().any(|byte| *byte == b':')
}

fn begins_with_digit(word: &[u8]) -> bool
    requires { 0 < length word.now }
    ensures { result ≡ spec.begins_with_digit word.now }
{
    word[0].is_ascii_digit()
}

#[tactic(auto, unfolding(crate::specs::Tokens::word_token))]
fn word_token(word: &[u8]) -> Token
    requires { 0 < length word.now }
    ensures { result ≡ spec.word_token word.now }
{
    if begins_with_digit(word) || has_colon(word) {
        return constant_token(word);
    }
    if let Some(field) = Field::named(word) {
        return Token::Field(field);
    }
    match Predicate::named(word) {
        Some(predicate) => Token::Predicate(predicate),
        None => Token::Unknown,
    }
}

fn is_run(byte: u8) -> bool
    ensures { result ≡ spec.is_run byte }
{
    byte.is_ascii_alphanumeric() || byte == b'_' || byte == b'.' || byte == b':'
}

fn run_len(text: &[u8]) -> usize
    ensures value { result ≡ spec.run_len text.now }
    ensures within { result ≤ length text.now }
{
    text.iter().take_while(|byte| is_run(**byte)).count()
}

fn is_name_byte(byte: u8) -> bool
    ensures { result ≡ name_byte byte }
{
    is_run(byte) || byte == b'-'
}

fn name_len(text: &[u8]) -> usize
    ensures value { result ≡ spec.name_len text.now }
    ensures within { result ≤ length text.now }
{
    text.iter().take_while(|byte| is_name_byte(**byte)).count()
}

fn quoted_len(text: &[u8]) -> usize
    ensures value { result ≡ spec.quoted_len text.now }
    ensures within { result ≤ length text.now }
{
    text.iter().take_while(|byte| **byte != b'"').count()
}

#[tactic(auto, unfolding(crate::specs::Tokens::string_token))]
fn string_token(rest: &[u8]) -> (Token, usize)
    ensures value { result ≡ spec.string_token rest.now }
    ensures within { result.1 ≤ length rest.now + 1 }
{
    let len = quoted_len(rest);
    if len < rest.len() {
        (Token::Text, len + 2)
    } else {
        (Token::Bad, 1)
    }
}

#[tactic(auto, unfolding(crate::specs::Tokens::set_token), using(crate::proofs::Names::name_is, crate::proofs::Names::name_has))]
fn set_token(rest: &[u8]) -> (Token, usize)
    ensures value { result ≡ spec.set_token rest.now }
    ensures within { result.1 ≤ length rest.now + 1 }
{
    let len = name_len(rest);
    match Name::read(&rest[..len]) {
        Some(name) => (Token::Set(name), len + 1),
        None => (Token::Bad, 1),
    }
}

#[tactic(auto, unfolding(crate::specs::Tokens::group_token), using(crate::proofs::Names::name_is, crate::proofs::Names::name_has))]
fn group_token(rest: &[u8]) -> (Token, usize)
    ensures value { result ≡ spec.group_token rest.now }
    ensures within { result.1 ≤ length rest.now + 1 }
{
    let len = name_len(rest);
    match Name::read(&rest[..len]) {
        Some(name) => (Token::Group(name), len + 1),
        None => (Token::Bad, 1),
    }
}

fn symbol(byte: u8, rest: &[u8]) -> (Token, usize)
    ensures value { result ≡ spec.symbol byte rest.now }
    ensures within { result.1 ≤ length rest.now + 1 }
{
    match (byte, rest) {
        (b'(', _) => (Token::Open, 1),
        (b')', _) => (Token::Close, 1),
        (b'{', _) => (Token::OpenBrace, 1),
        (b'}', _) => (Token::CloseBrace, 1),
        (b',', _) => (Token::Comma, 1),
        (b'/', _) => (Token::Slash, 1),
        (b'!', [b'=', ..]) => (Token::Relation(Rel::Ne), 2),
        (b'!', _) => (Token::Bang, 1),
        (b'&', [b'&', ..]) => (Token::And, 2),
        (b'|', [b'|', ..]) => (Token::Or, 2),
        (b'=', [b'=', ..]) => (Token::Relation(Rel::Eq), 2),
        (b'<', [b'=', ..]) => (Token::Relation(Rel::Le), 2),
        (b'<', _) => (Token::Relation(Rel::Lt), 1),
        (b'>', [b'=', ..]) => (Token::Relation(Rel::Ge), 2),
        (b'>', _) => (Token::Relation(Rel::Gt), 1),
        (b'"', _) => string_token(rest),
        (b'$', _) => set_token(rest),
        (b'@', _) => group_token(rest),
        _ => (Token::Bad, 1),
    }
}

/// The token at the front of the text, behind the blanks, and its length in bytes.
#[tactic(auto, unfolding(crate::specs::Tokens::first_token))]
pub(crate) fn first_token(text: &[u8]) -> (Token, usize)
    ensures value { result ≡ spec.first_token text.now }
    ensures within { result.1 ≤ length text.now }
{
    let [byte, rest @ ..] = text else {
        return (Token::End, 0);
    };
    if is_run(*byte) {
        let len = run_len(text);
        (word_token(&text[..len]), len)
    } else {
        symbol(*byte, rest)
    }
}
