//! A cursor over the tokens of a text, which cuts each as it is reached.
ghost use Rattle.std.specs.Prelude.{◌≡◌, ◌<◌, ◌≤◌, ◌+◌, ◌^◌, length};
ghost use Rattle.match_language.specs.Input as spec;
ghost use Rattle.match_language.specs.Tokens.{is_token_blank};

use crate::token::{Token, first_token};
use std::marker::Model;

/// A place in a text, with the token there.
#[derive(Drop)]
pub(crate) struct Cursor<'a> {
    /// How many bytes come before the token.
    place: usize,
    /// The text from the token on.
    text: &'a [u8],
    token: Token,
    /// The token's length.
    len: usize,
}

impl<'a> Model for Cursor<'a> {
    ghost use Rattle.match_language.specs.Input.{Input, input_code};
    ghost use Rattle.match_language.specs.Cursor.{input_of, HasToken};

    ghost Value = { Input };

    ghost coded = { input_code };

    ghost view = { input_of };

    ghost invariant = { HasToken };
}

fn is_blank(byte: u8) -> bool
    ensures { result ≡ is_token_blank byte }
{
    byte == b' ' || byte == b'\t' || byte == b'\n'
}

fn blanks(text: &[u8]) -> usize
    ensures value { result ≡ spec.blanks text.now }
    ensures within { result ≤ length text.now }
{
    text.iter().take_while(|byte| is_blank(**byte)).count()
}

// Behind the blanks.
#[tactic(auto, unfolding(crate::specs::Input::skip))]
fn at(place: usize, text: &[u8]) -> Cursor<'_>
    requires { place + length text.now < 2 ^ 64 }
    ensures { result ≡ spec.skip place text.now }
{
    let skipped = blanks(text);
    let text = &text[skipped..];
    let (token, len) = first_token(text);
    Cursor {
        place: place + skipped,
        text,
        token,
        len,
    }
}

impl<'a> Cursor<'a> {
    /// At the text's first token.
    pub(crate) fn new(text: &'a [u8]) -> Cursor<'a>
        ensures { result ≡ spec.skip 0 text.now }
    {
        at(0, text)
    }

    /// The token there.
    #[tactic(auto, unfolding(crate::specs::Input::token))]
    pub(crate) fn peek(&self) -> Token
        ensures { result ≡ spec.token self.now }
    {
        self.token
    }

    /// Its place, in bytes from the text's begin.
    pub(crate) fn place(&self) -> usize
        ensures { result ≡ self.now.place }
    {
        self.place
    }

    /// How many bytes there are from the token on.
    pub(crate) fn left(&self) -> usize
        ensures { result ≡ spec.left self.now }
    {
        self.text.len()
    }

    /// The bytes between the quotes of a string that stands there.
    #[tactic(auto, unfolding(crate::specs::Input::quoted, crate::specs::Input::token))]
    pub(crate) fn quoted(&self) -> &'a [u8]
        ensures { result.now ≡ spec.quoted self.now }
    {
        match self.text {
            [_, rest @ ..] => &rest[..self.len.saturating_sub(2)],
            [] => self.text,
        }
    }

    /// Goes to the next token.
    #[tactic(auto, unfolding(crate::specs::Input::next))]
    pub(crate) fn advance(&mut self)
        ensures { self.new ≡ spec.next self.old }
    {
        *self = at(self.place + self.len, &self.text[self.len..]);
    }
}
