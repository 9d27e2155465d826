// The name of a job: which bytes are one, and how one is kept.
ghost use Rattle.std.specs.Prelude.{◌≡◌, IfSome, if◌then◌else◌, Some, None};
ghost use Rattle.job.specs.Rules.{name_byte, name_bytes, good_name};
ghost use Rattle.job.specs.Names.{name_of, spelled};

// The most bytes that a name has.
pub const MAX_NAME: usize = 8;

fn is_name_byte(byte: u8) -> bool
    ensures { result ≡ name_byte byte }
{
    matches!(byte, b'a'..=b'z' | b'0'..=b'9' | b'-')
}

// A `for` and no `all`: the rules of the project name this form.
fn are_name_bytes(bytes: &[u8]) -> bool
    ensures { result ≡ name_bytes bytes.now }
{
    for byte in bytes {
        if !is_name_byte(*byte) {
            return false;
        }
    }
    true
}

// Whether some bytes are a name: 1 to 8 of them, each a to z, 0 to 9 or a hyphen.
pub fn is_name(bytes: &[u8]) -> bool
    ensures { result ≡ good_name bytes.now }
{
    !bytes.is_empty() && bytes.len() <= MAX_NAME && are_name_bytes(bytes)
}

// A name in place: its bytes from the front, and 0 behind them. An array with its length beside it, since no call of a run may fail for want of memory.
#[derive(Clone, Copy)]
pub struct Name {
    pub(crate) bytes: [u8; MAX_NAME],
    pub(crate) len: u8,
}

impl Name {
    // The name of a line that no job has.
    pub const HYPHEN: Name = Name {
        bytes: *b"-\0\0\0\0\0\0\0",
        len: 1,
    };

    // The name that some bytes spell, or none where they break the rule of names. (`TryFrom` would say no more than this name.)
    pub fn new(bytes: &[u8]) -> Option<Name>
        ensures keeps { result ≡ (if good_name bytes.now then Some (name_of bytes.now) else None) }
        ensures spells { IfSome result (λ name. spelled name ≡ bytes.now) }
    {
        if !is_name(bytes) {
            return None;
        }
        // At most 8 bytes, so `as` loses nothing below.
        let mut kept = [0; MAX_NAME];
        kept[0..bytes.len()].copy_from_slice(bytes);
        Some(Name {
            bytes: kept,
            len: bytes.len() as u8,
        })
    }

    // The bytes that spell it.
    pub fn as_bytes(&self) -> &[u8]
        ensures { result.now ≡ spelled self.now }
    {
        let len = usize::from(self.len).min(MAX_NAME);
        &self.bytes[0..len]
    }
}
