//! The bytes of events, and the source over them.

ghost use Rattle.std.specs.Prelude.{◌≡◌, ◌≤◌, ◌<◌, ◌+◌, ◌^◌, ◌∷◌, [], length, drop};
ghost use Rattle.bit_c.specs.Bytes.{account_of, bytes_in, whole};

use bit_fields::{Source, SourceFailed};
use std::io::Read;

/// Bytes that the caller keeps unchanged, or bytes that a handle owns.
#[derive(Drop)]
pub enum Bytes {
    Lent(&'static [u8]),
    Owned(Vec<u8>),
}

impl Bytes {
    #[inline(always)]
    fn as_slice(&self) -> &[u8]
        ensures { result.now ≡ bytes_in self.now }
    {
        match self {
            Bytes::Lent(bytes) => bytes,
            Bytes::Owned(bytes) => bytes.as_slice(),
        }
    }
}

/// A source of bytes, which it keeps. It fails only if it is exhausted.
#[derive(Drop)]
pub struct BytesSource {
    bytes: Bytes,
    given: usize,
    pulls: u64,
    ghost within: { given ≤ length (bytes_in bytes) },
}

impl BytesSource {
    /// A source that has given nothing.
    pub(crate) fn new(bytes: Bytes) -> BytesSource
        ensures { ⟦<BytesSource as Source>⟧.incoming result
            ≡ whole (bytes_in bytes) (account_of bytes ∷ []) }
    {
        BytesSource {
            bytes,
            given: 0,
            pulls: 0,
        }
    }

    /// All its bytes.
    pub(crate) fn into_bytes(self) -> Bytes
        ensures { (⟦<BytesSource as Source>⟧.incoming self).accounts ≡ account_of result ∷ [] }
    {
        self.bytes
    }

    /// The bytes that it has not given.
    #[inline(always)]
    fn rest(&self) -> &[u8]
        ensures rest { result.now ≡ drop self.now.given (bytes_in self.now.bytes) }
        ensures fits { self.now.given + length result.now < 2 ^ 64 }
    {
        &self.bytes.as_slice()[self.given..]
    }
}

impl Source for BytesSource {
    ghost use Rattle.std.specs.Prelude.{Some, [], ◌∷◌, drop};
    ghost use Rattle.bit_c.specs.Bytes.{account_of, bytes_in};

    ghost incoming = { λ s. record {
      to_come = Some (drop s.given (bytes_in s.bytes));
      pulls = s.pulls;
      failures = 0;
      accounts = account_of s.bytes ∷ [];
    } };

    #[inline]
    fn pull(&mut self, into: &mut [u8]) -> Result<usize, SourceFailed> {
        if self.pulls == u64::MAX {
            return Err(SourceFailed);
        }
        self.pulls += 1;
        let mut rest = self.rest();
        let count = rest.read(into).map_err(|_| SourceFailed)?;
        self.given += count;
        Ok(count)
    }

    #[inline(always)]
    fn look(&mut self) -> Result<bool, SourceFailed> {
        Ok(!self.rest().is_empty() && self.pulls < u64::MAX)
    }

    #[inline(always)]
    fn lend(&mut self) -> &[u8] {
        self.rest()
    }

    #[inline(always)]
    fn pass(&mut self, most: usize) -> Result<usize, SourceFailed> {
        if self.pulls == u64::MAX {
            return Err(SourceFailed);
        }
        self.pulls += 1;
        let count = most.min(self.rest().len());
        self.given += count;
        Ok(count)
    }
}
