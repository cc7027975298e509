// Text that is put together piece by piece.
ghost use Rattle.std.specs.Prelude.{◌≡◌, ◌+◌, ◌≤◌, [], ◌++◌, decimal, OnOk, OnErr, vec_capacity, vec_len};
ghost use Rattle.std.specs.Fmt.{signed_decimal};
ghost use Rattle.fri_text.specs.Hex.{hex_word};

use itoa::Buffer;
use std::alloc::{AllocError, Global};
use std::marker::Model;

// How many bytes most lines find room in.
const LINE_ROOM: usize = 64;

/// Text in the making. Contracts see the list of its bytes. Each call adds at the end, and adds nothing
/// where there is no memory for all of it.
pub struct Text {
    bytes: Vec<u8>,
}

// By hand, so that it is proved here, and not in each crate that owns one.
impl Drop for Text {
    fn drop(self) {
        let Self { bytes: _bytes } = self;
    }
}

impl Model for Text {
    ghost use Rattle.std.specs.Prelude.{ℕ, List};

    ghost Value = { List ℕ };

    ghost view = { λ t. t.bytes.items };
}

impl Text {
    /// The empty text. It takes no memory.
    pub fn new(alloc: Global) -> Text
        ensures { result ≡ [] }
    {
        Text {
            bytes: Vec::new(alloc),
        }
    }

    /// The bytes of the text.
    pub fn bytes(&self) -> &[u8]
        ensures { result.now ≡ self.now }
    {
        self.bytes.as_slice()
    }

    /// The bytes of the text, which are kept and not copied.
    pub fn into_vec(self) -> Vec<u8>
        ensures { result.items ≡ self }
    {
        let Self { bytes } = self;
        bytes
    }

    /// Takes all bytes out. Their room is kept.
    pub fn clear(&mut self)
        ensures { self.new ≡ [] }
    {
        self.bytes.clear();
    }

    /// Adds the text.
    pub fn push_str(&mut self, s: &str) -> Result<(), AllocError>
        ensures ok { OnOk result (self.new ≡ self.old ++ s.now) }
        ensures err { OnErr result (self.new ≡ self.old) }
    {
        self.push_bytes(s.as_bytes())
    }

    /// Adds the bytes, which need not be text.
    pub fn push_bytes(&mut self, b: &[u8]) -> Result<(), AllocError>
        ensures ok { OnOk result (self.new ≡ self.old ++ b.now) }
        ensures err { OnErr result (self.new ≡ self.old) }
    {
        if self.bytes.len() + b.len() > self.bytes.capacity() {
            make_room(&mut self.bytes, b.len())?;
        }
        match b {
            [byte] => {
                self.bytes.push_reserved(*byte);
                Ok(())
            }
            _ => self.bytes.extend_from_slice(b),
        }
    }

    /// Adds the number in decimal digits, with no zero in front.
    #[tactic(auto, using(std::proofs::lemmas::Fmt::decimal_digit))]
    pub fn push_u64(&mut self, v: u64) -> Result<(), AllocError>
        ensures ok { OnOk result (self.new ≡ self.old ++ decimal v) }
        ensures err { OnErr result (self.new ≡ self.old) }
    {
        if v < 10 {
            return self.push_bytes(&[b'0' + v as u8]);
        }
        let mut buffer = Buffer::new();
        self.push_str(buffer.format(v))
    }

    /// Adds the number in decimal digits, with a minus before a negative one.
    pub fn push_i64(&mut self, v: i64) -> Result<(), AllocError>
        ensures ok { OnOk result (self.new ≡ self.old ++ signed_decimal v) }
        ensures err { OnErr result (self.new ≡ self.old) }
    {
        if let Ok(number) = u64::try_from(v) {
            return self.push_u64(number);
        }
        let mut buffer = Buffer::new();
        self.push_str(buffer.format(v))
    }

    /// Adds two lower-case hexadecimal digits for each byte, or `-` where there is none.
    pub fn push_hex(&mut self, alloc: Global, b: &[u8]) -> Result<(), AllocError>
        ensures ok { OnOk result (self.new ≡ self.old ++ hex_word b.now) }
        ensures err { OnErr result (self.new ≡ self.old) }
    {
        if b.is_empty() {
            return self.push_str("-");
        }
        let digits = hex::encode(alloc, b)?;
        self.push_str(digits.as_str())
    }
}

// Asks for room for so many bytes more, and for a whole line at least.
#[cold]
#[inline(never)]
fn make_room(bytes: &mut Vec<u8>, count: usize) -> Result<(), AllocError>
    ensures room { OnOk result (vec_len bytes.new + count ≤ vec_capacity bytes.new) }
    ensures same { bytes.new.items ≡ bytes.old.items }
{
    bytes.reserve(count.max(LINE_ROOM))
}
