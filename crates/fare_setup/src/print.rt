ghost use Rattle.std.specs.Prelude.{◌≡◌, [], ◌∷◌, ◌++◌, OnOk, OnErr, length, map, take};
ghost use Rattle.std.specs.Fmt.{decimal};
ghost use Rattle.fare_lines.specs.declared.line.Line.TheVariants.{Setup};
ghost use Rattle.fare_lines.specs.declared.line.SchemeLine.TheVariants as line;
ghost use Rattle.fare_lines.specs.Grammar.{line_text, size_number as number_of_size};
ghost use Rattle.fare_lines.specs.Lines.{printed};
ghost use Rattle.fare_lines.specs.Replies.{words_line};

use fare_lines::{SchemeLine, ZoneText};
use fare_scheme::DemoSize;
use itoa::Buffer;
use std::alloc::AllocError;

/// Appends a keyword and its numbers, with a space before each number, and a line feed. After an error some of it may
/// stand there.
fn put_numbers(keyword: &str, numbers: &[u32], out: &mut Vec<u8>) -> Result<(), AllocError>
    ensures appended { OnOk result (out.new.items ≡ out.old.items ++ words_line (keyword.now ∷ map decimal numbers.now)) }
    ensures front { take (length out.old.items) out.new.items ≡ out.old.items }
{
    out.extend_from_slice(keyword.as_bytes())?;
    for number in numbers {
        out.push(b' ')?;
        out.extend_from_slice(Buffer::new().format(*number).as_bytes())?;
    }
    out.push(b'\n')?;
    Ok(())
}

/// Appends a zone's line. After an error some of it may stand there.
fn put_zone(rule: &ZoneText, out: &mut Vec<u8>) -> Result<(), AllocError>
    ensures appended { OnOk result (out.new.items ≡ out.old.items ++ line_text (Setup (line.Zone rule.now)) ++ 10 ∷ []) }
    ensures front { take (length out.old.items) out.new.items ≡ out.old.items }
{
    out.extend_from_slice(b"zone ")?;
    out.extend_from_slice(rule.as_str().as_bytes())?;
    out.push(b'\n')?;
    Ok(())
}

/// The number of devices.
fn size_number(size: DemoSize) -> u32
    ensures { result ≡ number_of_size size }
{
    match size {
        DemoSize::OneDevice => 1,
        DemoSize::TwoDevices => 2,
    }
}

/// Appends a line. After an error some of it may stand there.
fn put_line(line: &SchemeLine, out: &mut Vec<u8>) -> Result<(), AllocError>
    ensures appended { OnOk result (out.new.items ≡ out.old.items ++ line_text (Setup line.now) ++ 10 ∷ []) }
    ensures front { take (length out.old.items) out.new.items ≡ out.old.items }
{
    match line {
        SchemeLine::Owner { owner, lane } => put_numbers("owner", &[u32::from(*owner), *lane], out),
        SchemeLine::Operator { operator } => put_numbers("operator", &[u32::from(*operator)], out),
        SchemeLine::Station { station, operator } => {
            put_numbers("station", &[u32::from(*station), u32::from(*operator)], out)
        }
        SchemeLine::Product {
            product,
            owner,
            fare,
        } => put_numbers("product", &[*product, u32::from(*owner), *fare], out),
        SchemeLine::Caps {
            product,
            daily,
            weekly,
        } => put_numbers("caps", &[*product, *daily, *weekly], out),
        SchemeLine::Hop { product, seconds } => put_numbers("hop", &[*product, *seconds], out),
        SchemeLine::Device {
            device,
            station,
            buffer,
        } => put_numbers("device", &[*device, u32::from(*station), *buffer], out),
        SchemeLine::Inbox { capacity } => put_numbers("inbox", &[*capacity], out),
        SchemeLine::Zone { rule } => put_zone(rule, out),
        SchemeLine::Start { day } => put_numbers("start", &[*day], out),
        SchemeLine::Seal => put_numbers("seal", &[], out),
        SchemeLine::Demo {
            size,
            buffer,
            inbox,
            lane,
        } => put_numbers("demo", &[size_number(*size), *buffer, *inbox, *lane], out),
    }
}

/// Appends a line that sets up a scheme in its one spelling, ended by a line feed. The error is want of memory, and
/// after it `out` is as before.
pub fn append_setup(line: &SchemeLine, out: &mut Vec<u8>) -> Result<(), AllocError>
    ensures appended { OnOk result (out.new.items ≡ out.old.items ++ line_text (Setup line.now) ++ 10 ∷ []) }
    ensures kept { OnErr result (out.new.items ≡ out.old.items) }
{
    let length = out.len();
    let appended = put_line(line, out);
    if appended.is_err() {
        out.truncate(length);
    }
    appended
}

/// Appends lines. After an error some of them may stand there.
fn put_lines(lines: &[SchemeLine], out: &mut Vec<u8>) -> Result<(), AllocError>
    ensures appended { OnOk result (out.new.items ≡ out.old.items ++ printed (map Setup lines.now)) }
    ensures front { take (length out.old.items) out.new.items ≡ out.old.items }
{
    for line in lines {
        append_setup(line, out)?;
    }
    Ok(())
}

/// Appends lines that set up a scheme, each ended by a line feed. The error is want of memory, and after it `out` is as
/// before.
pub fn print_setup(lines: &[SchemeLine], out: &mut Vec<u8>) -> Result<(), AllocError>
    ensures appended { OnOk result (out.new.items ≡ out.old.items ++ printed (map Setup lines.now)) }
    ensures kept { OnErr result (out.new.items ≡ out.old.items) }
{
    let length = out.len();
    let appended = put_lines(lines, out);
    if appended.is_err() {
        out.truncate(length);
    }
    appended
}
