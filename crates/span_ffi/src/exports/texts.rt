//! Texts that go into buffers of C.
ghost use Rattle.std.specs.Option.{option_map};
ghost use Rattle.span_border.specs.Status.{meant, status_text};
ghost use Rattle.span_border.specs.Buffers.{KeepsNumbers};
ghost use Rattle.span_ffi.specs.Lines.{WritesIfSome};

use span_border::{Status, write_all};

/// What a status says, in English.
#[unsafe(no_mangle)]
pub extern "C" fn span_status_text(status: u32, into: &mut [u8], len: &mut usize) -> u32
    ensures text { WritesIfSome (option_map status_text (meant status)) into.old (meant result) into.new len.new }
    ensures kept { KeepsNumbers (meant result) len.old len.new }
{
    let Some(status) = Status::of(status) else {
        return Status::BadData.number();
    };
    write_all(status.text().as_bytes(), into, len).number()
}
