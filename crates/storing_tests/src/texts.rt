//! Bits in memory, against bits that are written.

ghost use Rattle.std.specs.Prelude.{◌<◌, ◌^◌, length};

use bit_fields::{BitText, BitWriter, Fault, VecSink, put};
use std::alloc::{AllocError, Global};
use std::test::Fail;

/// So many numbers have more than two chunks.
const MANY: u64 = 310_000;

/// A number of 56 bits.
fn mixed(i: u64) -> u64
    ensures { result < 2 ^ 56 }
{
    i.wrapping_mul(0x9E37_79B9_7F4A_7C15) >> 8
}

/// Appends many numbers of 56 bits.
fn fill(text: &mut BitText, count: u64) -> Result<(), AllocError> {
    for i in 0..count {
        if text.len() < 1 << 60 {
            text.fixed(56, mixed(i))?;
        }
    }
    Ok(())
}

/// Writes the same.
fn fill_writer(writer: &mut BitWriter<VecSink>, count: u64) -> Result<(), Fault> {
    for i in 0..count {
        let value = mixed(i);
        if writer.position() < 1 << 60 {
            writer.fixed(28, value & 0xFFF_FFFF)?;
        }
        if writer.position() < 1 << 60 {
            writer.fixed(28, value >> 28)?;
        }
    }
    Ok(())
}

/// Gives the sink the last bytes, with zeros behind the last bit.
fn finish(writer: BitWriter<VecSink>) -> Result<VecSink, Fault> {
    let mut writer = writer;
    if writer.position() < 1 << 60 {
        writer.pad()?;
    }
    if writer.position() % 8 == 0 {
        writer.finish()?;
    }
    Ok(writer.into_sink())
}

/// The bytes of a text.
fn written(alloc: Global, text: BitText) -> Result<VecSink, Fault> {
    let mut writer = BitWriter::new(VecSink::new(alloc));
    if text.len() < 1 << 60 {
        text.write(&mut writer)?;
    }
    finish(writer)
}

/// Moves one text behind another.
fn join(text: &mut BitText, other: &mut BitText) -> Result<(), AllocError> {
    if text.len() < 1 << 60 && other.len() < 1 << 60 {
        text.append(other)?;
    }
    Ok(())
}

#[test]
fn grows_over_chunks(rt: HostRuntime) -> Result<(), Fail> {
    let mut text = BitText::new(rt.alloc());
    text.fixed(3, 5)?;
    fill(&mut text, MANY)?;
    assert!(rt; text.len() == 3 + 56 * MANY);
    let mut writer = BitWriter::new(VecSink::new(rt.alloc()));
    writer.fixed(3, 5)?;
    fill_writer(&mut writer, MANY)?;
    let sink = finish(writer)?;
    assert!(rt; written(rt.alloc(), text)?.bytes() == sink.bytes());
    Ok(())
}

#[test]
fn appends_chunks(rt: HostRuntime) -> Result<(), Fail> {
    let mut text = BitText::new(rt.alloc());
    text.fixed(7, 100)?;
    let mut other = BitText::new(rt.alloc());
    fill(&mut other, MANY)?;
    fill(&mut text, MANY)?;
    join(&mut text, &mut other)?;
    assert!(rt; text.len() == 7 + 112 * MANY && other.len() == 0);
    other.fixed(4, 9)?;
    join(&mut text, &mut other)?;
    let mut writer = BitWriter::new(VecSink::new(rt.alloc()));
    writer.fixed(7, 100)?;
    fill_writer(&mut writer, MANY)?;
    fill_writer(&mut writer, MANY)?;
    if writer.position() < 1 << 60 {
        writer.fixed(4, 9)?;
    }
    let sink = finish(writer)?;
    assert!(rt; written(rt.alloc(), text)?.bytes() == sink.bytes());
    Ok(())
}

#[test]
fn clears_and_begins_again(rt: HostRuntime) -> Result<(), Fail> {
    let mut text = BitText::new(rt.alloc());
    fill(&mut text, MANY)?;
    text.clear();
    assert!(rt; text.len() == 0);
    text.fixed(5, 21)?;
    text.pad()?;
    assert!(rt; text.len() == 32);
    text.record(300, &[7, 1 << 40])?;
    assert!(rt;
        written(rt.alloc(), text)?.bytes()
            == [
                21, 0, 0, 0, 0xB3, 0x89, 0x70, 0x80, 0x20, 8, 0x82, 0x20, 8, 6, 0, 0
            ]
            .as_slice()
    );
    Ok(())
}

#[test]
fn replaces_words(rt: HostRuntime) -> Result<(), Fail> {
    let mut text = BitText::new(rt.alloc());
    text.fixed(32, 0x0102_0304)?;
    text.fixed(32, 0x0506_0708)?;
    text.set_word(1, 0xA1A2_A3A4);
    text.fixed(8, 9)?;
    assert!(rt;
        written(rt.alloc(), text)?.bytes()
            == [4, 3, 2, 1, 0xA4, 0xA3, 0xA2, 0xA1, 9, 0, 0, 0].as_slice()
    );
    Ok(())
}

/// Stores 20 bits at the end of a text, which was lent. The text may get three bits before that is given back.
fn lend_twenty(text: &mut BitText, before: bool) -> Result<(), AllocError>
    requires { length text.old < 2 ^ 32 }
{
    let (mut last, at) = text.lend(20)?;
    if before {
        text.fixed(3, 5)?;
    }
    let after = put(last.as_mut_slice(), at, 20, 0x8F0F1);
    text.give_back(last, after)
}

#[test]
fn takes_back_what_was_lent(rt: HostRuntime) -> Result<(), Fail> {
    let mut text = BitText::new(rt.alloc());
    text.fixed(5, 21)?;
    lend_twenty(&mut text, false)?;
    assert!(rt; text.len() == 25);
    assert!(rt; written(rt.alloc(), text)?.bytes() == [0x35, 0x1E, 0x1E, 1].as_slice());
    Ok(())
}

#[test]
fn appends_what_was_lent(rt: HostRuntime) -> Result<(), Fail> {
    let mut text = BitText::new(rt.alloc());
    text.fixed(5, 21)?;
    lend_twenty(&mut text, true)?;
    assert!(rt; text.len() == 28);
    assert!(rt; written(rt.alloc(), text)?.bytes() == [0xAD, 0xF1, 0xF0, 8].as_slice());
    Ok(())
}
