// What is told of calls, in text.
ghost use Rattle.std.specs.Prelude.{◌≡◌, ◌<◌, ◌≤◌, false, length, Some, IfOk, string_bytes};
ghost use Rattle.std.specs.Fmt.{DisplaysOnOk, digit_glyph};
ghost use Rattle.script.specs.Records.{commas, hex, line, told};

use crate::answer::Answer;
use crate::separated::Separated;
use std::alloc::{AllocError, Global};
use std::fmt;

// The line that is printed for a line of the script.
pub fn record(heap: Global, number: u64, answer: &Answer) -> Result<String, AllocError>
    ensures { IfOk result (λ s. string_bytes s ≡ line number answer.now) }
{
    format!(in heap; "{number} {answer}")
}

// What is told of an answer, after the number of its line.
pub fn answer_text(heap: Global, answer: &Answer) -> Result<String, AllocError>
    ensures { IfOk result (λ s. string_bytes s ≡ told answer.now) }
{
    format!(in heap; "{answer}")
}

impl fmt::Display for Answer {
    ghost output = { λ answer. Some (told answer) };

    #[tactic(auto, unfolding(crate::specs::Records::layout_fields))]
    fn fmt<W: fmt::Write>(&self, f: &mut fmt::Formatter<W>) -> fmt::Result {
        match self {
            Answer::NoCall => write!(f, "no call"),
            Answer::Accepted => write!(f, "ok"),
            Answer::Layout { layout } => write!(f, "ok {layout}"),
            Answer::Height { height } => write!(f, "ok height={height}"),
            Answer::Written { written, buffer } => {
                write!(f, "ok written={written} bytes=")?;
                write_hex(f, buffer)
            }
            Answer::ByteLength { length } => write!(f, "ok byte_length={length}"),
            Answer::Element { text } => write!(f, "ok element={text}"),
            Answer::NoElement => write!(f, "ok element=none"),
            Answer::Equal { equal } => write!(f, "ok equal={equal}"),
            // Two faults, each with its number: a trait for faults with numbers would want an impl for each.
            Answer::LayoutFault { fault } => {
                let number = fault.number();
                write!(f, "fault {number} {fault}")
            }
            Answer::RingFault { fault } => {
                let number = fault.number();
                write!(f, "fault {number} {fault}")
            }
        }
    }
}

// How many bytes are written at once. The contract says the number itself.
const PORTION: usize = 32;

// Writes each byte by two hexadecimal digits; a portion at a time, since one call of the formatter a byte takes several
// times as long.
fn write_hex<W: fmt::Write>(f: &mut fmt::Formatter<W>, bytes: &[u8]) -> fmt::Result
    ensures { DisplaysOnOk W.write_str_gives f.old result (Some (hex bytes.now)) f.new }
{
    for portion in bytes.chunks(PORTION) {
        write_portion(f, portion)?;
    }
    Ok(())
}

// The same of so few bytes that their digits have room in an array.
fn write_portion<W: fmt::Write>(f: &mut fmt::Formatter<W>, bytes: &[u8]) -> fmt::Result
    requires { length bytes.now ≤ 32 }
    ensures { DisplaysOnOk W.write_str_gives f.old result (Some (hex bytes.now)) f.new }
{
    let mut digits = [0; 2 * PORTION];
    for (place, byte) in bytes.iter().enumerate() {
        digits[2 * place] = hex_digit(*byte / 16);
        digits[2 * place + 1] = hex_digit(*byte % 16);
    }
    f.write_str(std::str::from_utf8(&digits[..2 * bytes.len()]).unwrap())
}

// The hexadecimal digit of a number below sixteen.
fn hex_digit(number: u8) -> u8
    requires { number < 16 }
    ensures { result ≡ digit_glyph false number }
{
    if number < 10 {
        b'0' + number
    } else {
        b'a' + (number - 10)
    }
}

// Numbers in decimal, with commas between them.
pub fn joined(heap: Global, numbers: &[usize]) -> Result<String, AllocError>
    ensures { IfOk result (λ s. string_bytes s ≡ commas numbers.now) }
{
    let all = Separated(numbers);
    format!(in heap; "{all}")
}
