// Spans: bytes of a trace that lie together, how they are cut, and the tokens that they are read as.
ghost use Rattle.std.specs.Prelude.{◌≡◌, ℕ, ◌+◌, ◌^◌, ◌<◌, ◌≤◌, ◌∷◌, ◌++◌, length, take, IfSome, MatchOption, IsTrue, ◌↔◌};
ghost use Rattle.std.specs.Option.{SomeIff};
ghost use Rattle.std.specs.Char.{digit_value};
ghost use Rattle.trace.specs.Lines.{Spells};
ghost use Rattle.trace.specs.Inner.{IsShort};

use crate::token::{PlacedToken, Token};

// The most digits of a number.
const MAX_DIGITS: usize = 6;

// Whether there are as many bytes as a number has digits, and no 0 stands in front of others.
fn is_short(bytes: &[u8]) -> bool
    ensures { IsTrue result ↔ IsShort bytes.now }
{
    !bytes.is_empty() && bytes.len() <= MAX_DIGITS && (bytes[0] != b'0' || bytes.len() == 1)
}

// What a digit counts.
fn digit(byte: u8) -> Option<u32>
    ensures { SomeIff result (digit_value byte < 10) (digit_value byte) }
{
    char::from(byte).to_digit(10)
}

// The number that some bytes spell: one to six digits, with no leading zero.
fn value_of(bytes: &[u8]) -> Option<u32>
    ensures { MatchOption result ((n : ℕ) → Spells bytes.now n → ⊥) (λ n. Spells bytes.now n) }
{
    if !is_short(bytes) {
        return None;
    }
    // A loop and no `try_fold`: that the value stays small is an invariant, and a fold's closure has none.
    let mut value = 0;
    for byte in bytes {
        value = value * 10 + digit(*byte)?;
    }
    Some(value)
}

// Bytes of a trace that lie together, and the place of the first.
#[derive(Clone, Copy)]
pub(crate) struct Span<'a> {
    pub bytes: &'a [u8],
    pub place: usize,
    ghost fits: { place + length bytes.now < 2 ^ 64 },
}

impl<'a> Span<'a> {
    ghost use Rattle.trace.specs.Lines.{Spells, Lacks, Word};
    ghost use Rattle.trace.specs.Tokens.{bytes_of, WordAt};
    ghost use Rattle.trace.specs.Inner.{ReadsNumber, ReadsWord};

    // Its first `len` bytes.
    pub fn front(self, len: usize) -> Self
        requires { len ≤ length self.bytes.now }
        ensures bytes { result.bytes.now ≡ take len self.entry.bytes.now }
        ensures place { result.place ≡ self.entry.place }
    {
        Span {
            bytes: &self.bytes[..len],
            place: self.place,
        }
    }

    // What lies before the first `end`, and what lies behind it.
    pub fn cut(self, end: u8) -> Option<(Self, Self)>
        ensures places { IfSome result (λ p. (p.0.place ≡ self.entry.place) × (p.1.place ≡ self.entry.place + length p.0.bytes.now + 1)) }
        ensures cuts { MatchOption result (Lacks end self.entry.bytes.now) (λ p. Lacks end p.0.bytes.now × (self.entry.bytes.now ≡ p.0.bytes.now ++ end ∷ p.1.bytes.now)) }
    {
        let at = self.bytes.iter().position(|byte| *byte == end)?;
        let after = Span {
            bytes: &self.bytes[at + 1..],
            place: self.place + at + 1,
        };
        Some((self.front(at), after))
    }

    // The bytes as a word, whatever they are.
    pub fn token(self) -> PlacedToken<'a>
        ensures word { WordAt self.entry.place result }
        ensures bytes { bytes_of result.token ≡ self.entry.bytes.now }
    {
        PlacedToken {
            token: Token::Word(self.bytes),
            place: self.place,
        }
    }

    // The word that the bytes are.
    pub fn word(self) -> Option<PlacedToken<'a>>
        ensures { MatchOption result (Word self.entry.bytes.now → ⊥) (λ t. ReadsWord self.entry.bytes.now self.entry.place t) }
    {
        if self.bytes.is_empty() || self.bytes.contains(&b' ') || self.bytes.contains(&b'\n') {
            return None;
        }
        Some(self.token())
    }

    // The number that the bytes spell: one to six digits, with no leading zero.
    pub fn number(self) -> Option<PlacedToken<'a>>
        ensures { MatchOption result ((n : ℕ) → Spells self.entry.bytes.now n → ⊥) (λ t. ReadsNumber self.entry.bytes.now self.entry.place t) }
    {
        let value = value_of(self.bytes)?;
        Some(PlacedToken {
            token: Token::Number(self.bytes, value),
            place: self.place,
        })
    }
}
