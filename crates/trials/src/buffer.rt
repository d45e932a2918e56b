// Bytes that are lent: an image to read, or a buffer to write.
ghost use Rattle.std.specs.Prelude.{◌≤◌};

pub const BYTES: usize = 200;

// The first `length` bytes are lent, or all where there are fewer. Those behind them count too: no call may write there.
#[derive(Clone, Copy)]
pub struct Buffer {
    pub bytes: [u8; BYTES],
    pub length: usize,
}

// The low byte of a number.
fn low_byte(x: u64) -> u8 {
    (x % 256) as u8
}

impl Buffer {
    pub fn empty() -> Self {
        Buffer {
            bytes: [0; BYTES],
            length: 0,
        }
    }

    // The same bytes, of which so many are lent.
    pub fn of_length(self, length: usize) -> Self {
        let mut next = self;
        next.length = length;
        next
    }

    // How many bytes are lent.
    pub fn lent_length(&self) -> usize
        ensures { result ≤ 200 }
    {
        self.length.min(BYTES)
    }

    pub fn lent(&self) -> &[u8] {
        let length = self.lent_length();
        &self.bytes[..length]
    }

    pub fn lent_mut(&mut self) -> &mut [u8] {
        let length = self.lent_length();
        &mut self.bytes[..length]
    }

    // A byte, 0 behind all.
    pub fn byte(&self, i: usize) -> u8 {
        self.bytes.get(i).copied().unwrap_or(0)
    }

    // Sets a byte to the low byte of a number.
    pub fn put(&mut self, i: usize, x: u64) {
        if i < BYTES {
            self.bytes[i] = low_byte(x);
        }
    }

    // Lends one byte more, and sets it.
    pub fn push(&mut self, x: u64) {
        let length = self.length;
        self.put(length, x);
        self.length = length.wrapping_add(1);
    }
}
