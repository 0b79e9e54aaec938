//! Bytes that wait before a sink.
ghost use Rattle.std.specs.Prelude.{◌≡◌, ◌≤◌, [], ◌++◌, true, false};
ghost use Rattle.bus_outer.specs.declared.waiting.TheConstants.{SIZE};

/// How many bytes wait at most: a push per few kilobytes, whatever the fields are.
const SIZE: usize = 4096;

/// Bytes that wait, in room of a fixed size: the first `count`. A vector of fixed size would blank its room each time that it is emptied.
#[derive(Drop)]
pub(crate) struct Waiting {
    room: [u8; SIZE],
    count: usize,
    ghost within: { count ≤ SIZE },
}

impl Waiting {
    ghost use Rattle.bus_outer.specs.Waiting.{waiting};

    /// None waits.
    pub(crate) fn new() -> Waiting
        ensures { waiting result ≡ [] }
    {
        Waiting {
            room: [0; SIZE],
            count: 0,
        }
    }

    /// Has bytes wait behind the others, where there is room for all of them. False where there isn't: then nothing changes.
    pub(crate) fn keep(&mut self, bytes: &[u8]) -> bool
        ensures kept { result ≡ true → waiting self.new ≡ waiting self.old ++ bytes.now }
        ensures full { result ≡ false → self.new ≡ self.old }
    {
        if bytes.len() > SIZE - self.count {
            return false;
        }
        let end = self.count + bytes.len();
        self.room[self.count..end].copy_from_slice(bytes);
        self.count = end;
        true
    }

    /// The bytes that wait.
    pub(crate) fn bytes(&self) -> &[u8]
        ensures { result.now ≡ waiting self.now }
    {
        &self.room[..self.count]
    }

    /// None waits any more.
    pub(crate) fn clear(&mut self)
        ensures { waiting self.new ≡ [] }
    {
        self.count = 0;
    }
}
