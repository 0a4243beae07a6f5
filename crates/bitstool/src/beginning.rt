//! What an input begins like.

ghost use Rattle.std.specs.Prelude.{◌≡◌, IfOk, OnErr, OnOk};
ghost use Rattle.std.specs.List.{list_all};
ghost use Rattle.bit_fields.specs.Devices.{GaveNone, Looked};
ghost use Rattle.bitstool.specs.Beginning.{BeginsLike, beginning_of, is_text_byte};

use bit_fields::{Source, SourceFailed};

/// What an input begins like: a file of another kind, or none that is known.
#[derive(Clone, Copy, Debug, PartialEq, Eq)]
pub enum Beginning {
    Gzip,
    Xz,
    Zstd,
    Elf,
    MachO,
    /// A program or a library for Windows.
    Pe,
    Archive,
    /// A text of LLVM IR.
    Assembly,
    /// Any other text.
    Text,
    Unknown,
}

/// The number of bytes that are looked at.
const FRONT: usize = 8;

/// Whether a byte is a letter or a space of ASCII.
fn is_text_byte(byte: u8) -> bool
    ensures { result ≡ is_text_byte byte }
{
    byte == 9 || byte == 10 || byte == 13 || (byte >= 32 && byte < 127)
}

/// Whether all bytes are a text's.
pub fn is_text(bytes: &[u8]) -> bool
    ensures { result ≡ list_all is_text_byte bytes.now }
{
    bytes.iter().all(|byte| is_text_byte(*byte))
}

/// What begins with these bytes.
fn beginning_of(bytes: &[u8]) -> Beginning
    ensures { result ≡ beginning_of bytes.now }
{
    if bytes.starts_with(&[0x1f, 0x8b]) {
        Beginning::Gzip
    } else if bytes.starts_with(&[0xfd, 0x37, 0x7a, 0x58, 0x5a, 0x00]) {
        Beginning::Xz
    } else if bytes.starts_with(&[0x28, 0xb5, 0x2f, 0xfd]) {
        Beginning::Zstd
    } else if bytes.starts_with(&[0x7f, 0x45, 0x4c, 0x46]) {
        Beginning::Elf
    } else if bytes.starts_with(&[0xcf, 0xfa, 0xed, 0xfe])
        || bytes.starts_with(&[0xce, 0xfa, 0xed, 0xfe])
        || bytes.starts_with(&[0xca, 0xfe, 0xba, 0xbe])
    {
        Beginning::MachO
    } else if bytes.starts_with(b"!<arch>") {
        Beginning::Archive
    } else if bytes.starts_with(b"; Module") {
        Beginning::Assembly
    } else if !bytes.is_empty() && is_text(bytes) {
        Beginning::Text
    } else if bytes.starts_with(b"MZ") {
        Beginning::Pe
    } else {
        Beginning::Unknown
    }
}

/// What a source begins like, by bytes that it has buffered, of its first `most` bytes at most. None is taken.
pub fn look_at<S: Source>(source: &mut S, most: u64) -> Result<Beginning, SourceFailed>
    ensures looked { OnOk result (Looked (S.incoming source.old) (S.incoming source.new)) }
    ensures like { IfOk result (BeginsLike (S.incoming source.old).to_come most) }
    ensures failed { OnErr result (GaveNone (S.incoming source.old) (S.incoming source.new)) }
{
    if most == 0 || !source.look()? {
        return Ok(Beginning::Unknown);
    }
    let bytes = source.lend();
    let count = (bytes.len().min(FRONT) as u64).min(most) as usize;
    Ok(beginning_of(&bytes[..count]))
}
