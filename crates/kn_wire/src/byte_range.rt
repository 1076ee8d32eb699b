//! Ranges of the bytes of a text.
ghost use Rattle.std.specs.Prelude.{◌≡◌, ◌+◌, ◌<◌, ◌≤◌, ◌^◌, length};
ghost use Rattle.kn_wire.specs.ByteRanges.{bytes_in};

/// Bytes of a text: `len` of them from a place on.
#[derive(Clone, Copy, Drop)]
pub(crate) struct ByteRange {
    pub start: usize,
    pub len: usize,
}

impl ByteRange {
    ghost use Rattle.std.specs.Prelude.{◌≡◌, ◌+◌, ◌<◌, ◌≤◌, ◌^◌, length};
    ghost use Rattle.kn_wire.specs.ByteRanges.{bytes_in};

    /// The bytes of this range.
    pub(crate) fn of(self, text: &[u8]) -> &[u8]
        requires { self.start + self.len ≤ length text.now }
        ensures { result.now ≡ bytes_in self text.now }
    {
        text.split_at(self.start).1.split_at(self.len).0
    }

    /// The same bytes in a longer text, where so many bytes stand before them.
    pub(crate) fn behind(self, bytes: usize) -> ByteRange
        requires { self.start + bytes < 2 ^ 64 }
        ensures start { result.start ≡ bytes + self.start }
        ensures len { result.len ≡ self.len }
    {
        ByteRange {
            start: bytes + self.start,
            len: self.len,
        }
    }
}
