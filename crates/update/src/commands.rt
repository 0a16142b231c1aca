// The fixed lists of Reset and Clear: one write each.
ghost use Rattle.std.specs.Prelude.{◌≡◌, List, ℕ, ◌≤◌, length};
ghost use Rattle.burst.specs.Burst.{encode};
ghost use Rattle.host.specs.declared.Record.{Record};
ghost use Rattle.host.specs.Record.{record_behind};
ghost use Rattle.update.specs.Update.{send_answer, send_buffer, command_write, command, reset_answer, reset_buffer, clear_answer, clear_buffer};

use crate::{ListAnswer, Listed};
use host::RecordRef;
use map::Refusal;

// FFh to 0A9h, as a list: n, t, the length of the one transaction, its head with pins 0, and its data byte.
const RESET_I2C: [u8; 9] = *b"\x01\x00\x03\x00\x03\x00\x80\xA9\xFF";

const RESET_SPI: [u8; 9] = *b"\x01\x00\x03\x00\x03\x00\x2A\x60\xFF";

// 0Fh 0Fh from 0A7h: the open bits, then the short bits.
const CLEAR_I2C: [u8; 10] = *b"\x01\x00\x04\x00\x04\x00\x80\xA7\x0F\x0F";

const CLEAR_SPI: [u8; 10] = *b"\x01\x00\x04\x00\x04\x00\x29\xE0\x0F\x0F";

// A command, to the front of the buffer: of these lists of one write, with pins 0, that of the record's bus. An I2C head has the record's
// pins. Inlined, so that a string's length is a constant in each command: its copy is no loop then.
#[inline(always)]
fn put_command(r: RecordRef<'_>, buffer: &mut [u8], i2c: &[u8], spi: &[u8]) -> ListAnswer
    requires { (8 ≤ length i2c.now) × (length spi.now ≡ length i2c.now) }
    ensures { (a : ℕ) (bytes : List ℕ) (new : Record) → i2c.now ≡ encode 0 0 (command_write a bytes) →
        spi.now ≡ encode 1 0 (command_write a bytes) →
        (result ≡ send_answer (record_behind r.entry) (command a bytes new) (length buffer.old))
        × (buffer.new ≡ send_buffer (record_behind r.entry) (command a bytes new) buffer.old) }
{
    host::sound_answer(r)?;
    let size = i2c.len();
    if buffer.len() < size {
        return Err(Refusal::BufferShort.into());
    }
    if r.header.bus == 0 {
        buffer[..size].copy_from_slice(i2c);
        buffer[6] |= 8 * (r.header.pins % 4);
    } else {
        buffer[..size].copy_from_slice(spi);
    }
    Ok(Listed { n: 1, t: size - 6 })
}

// Reset on lent images; the caller puts the reset values into the image where the list was written.
pub fn reset_parts(r: RecordRef<'_>, buffer: &mut [u8]) -> ListAnswer
    ensures value { result ≡ reset_answer (record_behind r.entry) (length buffer.old) }
    ensures buffer_after { buffer.new ≡ reset_buffer (record_behind r.entry) buffer.old }
{
    put_command(r, buffer, &RESET_I2C, &RESET_SPI)
}

// Clear on lent images.
pub fn clear_parts(r: RecordRef<'_>, buffer: &mut [u8]) -> ListAnswer
    ensures value { result ≡ clear_answer (record_behind r.entry) (length buffer.old) }
    ensures buffer_after { buffer.new ≡ clear_buffer (record_behind r.entry) buffer.old }
{
    put_command(r, buffer, &CLEAR_I2C, &CLEAR_SPI)
}
