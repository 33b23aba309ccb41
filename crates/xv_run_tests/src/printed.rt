//! What the command prints, cut into its parts.

/// Each part is some whole lines.
#[derive(Clone, Copy)]
pub struct Printed<'a> {
    pub journal: &'a str,
    pub report: &'a str,
    /// The workers' lines, and that of those entries that were made after them.
    pub workers: &'a str,
    pub source: &'a str,
    pub dest: &'a str,
}

/// Cuts what is printed in rows.
pub(crate) fn parts(output: &[u8]) -> Option<Printed<'_>> {
    let all = str::from_utf8(output).ok()?;
    let (journal, rest) = before(all, "phase ")?;
    let (report, rest) = before(rest, "worker ")?;
    let (workers, image) = behind_line(rest, "finish ")?;
    let (source, dest) = before(image, "dst ").unwrap_or((image, ""));
    Some(Printed {
        journal,
        report,
        workers,
        source,
        dest,
    })
}

/// Cuts a text before the first place of a word.
fn before<'a>(text: &'a str, word: &str) -> Option<(&'a str, &'a str)> {
    text.split_at_checked(text.find(word)?)
}

/// Cuts a text behind the first line with a word.
fn behind_line<'a>(text: &'a str, word: &str) -> Option<(&'a str, &'a str)> {
    let at = text.find(word)?;
    let (_, rest) = text.split_at_checked(at)?;
    let (line, _) = rest.split_once('\n')?;
    text.split_at_checked(at.checked_add(line.len())?.checked_add(1)?)
}

/// The number behind a name, on a line of its own.
pub(crate) fn number(lines: &str, name: &str) -> Option<u64> {
    for line in lines.lines() {
        if let Some((first, value)) = line.rsplit_once(' ') {
            if first == name {
                return value.parse::<u64>().ok();
            }
        }
    }
    None
}

/// The sum of the numbers that end the lines.
pub(crate) fn sum(lines: &str) -> Option<u64> {
    let mut sum = 0u64;
    for line in lines.lines() {
        let (_, value) = line.rsplit_once(' ')?;
        sum = sum.checked_add(value.parse::<u64>().ok()?)?;
    }
    Some(sum)
}

/// Whether a line stands among the lines.
pub(crate) fn has_line(lines: &str, line: &str) -> bool {
    lines.lines().any(|each| each == line)
}
