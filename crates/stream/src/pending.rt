// The line that has not ended yet.
ghost use Rattle.std.specs.Prelude.{◌≡◌, ◌≤◌, [], ◌++◌};
ghost use Rattle.stream.specs.Held.{first_bytes};

// One byte more than the longest line of a call.
const KEPT: usize = 201;

// The first bytes of the line: of a longer one the answer is the same.
#[derive(Drop)]
pub(crate) struct Pending {
    bytes: [u8; KEPT],
    len: usize,
    ghost few: { len ≤ 201 },
}

impl Pending {
    ghost use Rattle.stream.specs.Sessions.{pending_bytes};

    pub(crate) fn new() -> Pending
        ensures { pending_bytes result ≡ [] }
    {
        Pending {
            bytes: [0; KEPT],
            len: 0,
        }
    }

    pub(crate) fn line(&self) -> &[u8]
        ensures { result.now ≡ pending_bytes self.now }
    {
        &self.bytes[..self.len]
    }

    // More bytes of the line.
    pub(crate) fn push(&mut self, bytes: &[u8])
        ensures { pending_bytes self.new ≡ first_bytes (pending_bytes self.old ++ bytes.now) }
    {
        let n = bytes.len().min(KEPT - self.len);
        let end = self.len + n;
        self.bytes[self.len..end].copy_from_slice(&bytes[..n]);
        self.len = end;
    }

    // The line has ended.
    pub(crate) fn clear(&mut self)
        ensures { pending_bytes self.new ≡ [] }
    {
        self.len = 0;
    }
}
