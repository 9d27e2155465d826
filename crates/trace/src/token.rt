// Tokens: words and numbers, with the bytes of the trace that spell them and the place of the first.
ghost use Rattle.std.specs.Prelude.{◌≡◌};
ghost use Rattle.trace.specs.Tokens.{bytes_of, value_of};

// A word or a number, with the bytes of the trace that spell it.
// One enum and no type for each of the two, since the rules of the project ask for this one.
#[derive(Clone, Copy)]
pub enum Token<'a> {
    // One or more bytes, none of them a space or an LF.
    Word(&'a [u8]),
    // Digits, and the number that they spell.
    Number(&'a [u8], u32),
}

// A token, and the place of its first byte in the trace.
#[derive(Clone, Copy)]
pub struct PlacedToken<'a> {
    pub token: Token<'a>,
    pub place: usize,
}

impl<'a> PlacedToken<'a> {
    // The bytes of the trace that spell the token.
    pub fn bytes(&self) -> &'a [u8]
        ensures { result.now ≡ bytes_of self.now.token }
    {
        match self.token {
            Token::Word(bytes) => bytes,
            Token::Number(bytes, _) => bytes,
        }
    }

    // The number that the token stands for, 0 for a word.
    // It answers no `Option`, since the call cannot fail and never could.
    pub fn value(&self) -> u32
        ensures { result ≡ value_of self.now.token }
    {
        match self.token {
            Token::Word(_) => 0,
            Token::Number(_, value) => value,
        }
    }
}
