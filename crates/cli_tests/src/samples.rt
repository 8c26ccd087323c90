// Files of programs, as text: its words of hexadecimal digits are the words of the file. A word with `*COUNT`
// behind it stands there so often, and a line that begins with `#` is a comment.
use std::fs;

/// Adds a word as often as it stands there.
fn add_word(file: &mut Vec<u8>, text: &str) -> anyhow::Result<()> {
    let (digits, count) = text.split_once('*').unwrap_or((text, "1"));
    let word = u32::from_str_radix(digits, 16)?.to_le_bytes();
    for _ in 0..count.parse::<u32>()? {
        file.extend_from_slice(&word)?;
    }
    Ok(())
}

/// Adds the words of a line.
fn add_line(file: &mut Vec<u8>, line: &str) -> anyhow::Result<()> {
    if line.starts_with('#') {
        return Ok(());
    }
    for word in line.split_whitespace() {
        add_word(file, word)?;
    }
    Ok(())
}

/// The file of a sample.
pub fn sample(rt: &HostRuntime, name: &str) -> anyhow::Result<Vec<u8>> {
    let text = fs::read_to_string(rt, name)?;
    let mut file = Vec::new(rt.alloc());
    for line in text.as_str().lines() {
        add_line(&mut file, line)?;
    }
    Ok(file)
}
