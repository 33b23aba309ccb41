//! Lines that are written.

ghost use Rattle.std.specs.Prelude.{◌≡◌, ◌≤◌, ◌++◌, ◌∷◌, [], length, map, decimal, OnOk, OnErr};
ghost use Rattle.xv_base.specs.Hex.{hex};
ghost use Rattle.xv_text.specs.Lines.{line};
ghost use Rattle.xv_text.specs.Print.{spaced};

use xv_base::{LineBuf, NoMemory, Pattern};

/// Appends a line of a word and numbers: a word of at most 16 bytes, and at most four numbers.
/// Errors: want of memory, where the text is as it was.
pub fn push_line(out: &mut Vec<u8>, word: &[u8], numbers: &[u32]) -> Result<(), NoMemory>
    requires short { length word.now ≤ 16 }
    requires few { length numbers.now ≤ 4 }
    ensures ok { OnOk result (out.new.items ≡ out.old.items ++ line (word.now ∷ map decimal numbers.now)) }
    ensures err { OnErr result (out.new.items ≡ out.old.items) }
{
    let mut line = LineBuf::new();
    begin(&mut line, word, numbers);
    line.push(b'\n');
    push_bytes(out, line.bytes())
}

/// Appends a line of a word, numbers and bytes: a word of at most 16 bytes, and at most four numbers.
/// Errors: want of memory, where the text is as it was.
pub fn push_line_with(
    out: &mut Vec<u8>,
    word: &[u8],
    numbers: &[u32],
    pattern: &Pattern,
) -> Result<(), NoMemory>
    requires short { length word.now ≤ 16 }
    requires few { length numbers.now ≤ 4 }
    ensures ok { OnOk result (out.new.items ≡ out.old.items ++ line (word.now ∷ (map decimal numbers.now ++ hex pattern.now ∷ []))) }
    ensures err { OnErr result (out.new.items ≡ out.old.items) }
{
    let mut line = LineBuf::new();
    begin(&mut line, word, numbers);
    line.push(b' ');
    line.push_hex(pattern.bytes());
    line.push(b'\n');
    push_bytes(out, line.bytes())
}

/// Writes a word and numbers, with a space before each number.
fn begin(line: &mut LineBuf, word: &[u8], numbers: &[u32])
    requires empty { line.old ≡ [] }
    requires short { length word.now ≤ 16 }
    requires few { length numbers.now ≤ 4 }
    ensures fields { line.new ≡ word.now ++ spaced (map decimal numbers.now) }
    ensures room { length line.new ≤ 60 }
{
    line.push_all(word);
    for n in numbers {
        line.push(b' ');
        line.push_number(*n);
    }
}

/// Appends bytes.
/// Errors: want of memory, where the text is as it was.
fn push_bytes(out: &mut Vec<u8>, bytes: &[u8]) -> Result<(), NoMemory>
    ensures ok { OnOk result (out.new.items ≡ out.old.items ++ bytes.now) }
    ensures err { OnErr result (out.new.items ≡ out.old.items) }
{
    match out.extend_from_slice(bytes) {
        Ok(()) => Ok(()),
        Err(_) => Err(NoMemory),
    }
}
