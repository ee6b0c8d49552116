//! The byte order of a file.

ghost use Rattle.std.specs.Prelude.{◌≡◌, length};
ghost use Rattle.frame_wire.specs.Entries.{value};

/// The byte order of each number of a file, that of the machine which wrote it.
#[derive(Clone, Copy, Debug, PartialEq, Eq)]
pub enum Order {
    Little,
    Big,
}

impl Order {
    /// The number that four bytes stand for.
    pub fn number(self, bytes: &[u8]) -> u32
        requires { length bytes.now ≡ 4 }
        ensures { result ≡ value self bytes.now }
    {
        let four = [bytes[0], bytes[1], bytes[2], bytes[3]];
        match self {
            Order::Little => u32::from_le_bytes(four),
            Order::Big => u32::from_be_bytes(four),
        }
    }
}
