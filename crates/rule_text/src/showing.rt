// The rows and the names of a rule text, a line each.
use census::spans::Span;
use std::io;
use std::io::{Cursor, Write};
use translate::Translation;

// What waits to be written: no row's line is longer than 101 bytes, and the names of a text with their numbers are shorter than two texts.
pub type Page = Cursor<[u8; 8192]>;

// The lines of the first n rows.
pub fn show_rows(page: &mut Page, rows: &[u32; 576], n: usize) -> io::Result<()> {
    for row in rows.chunks_exact(9).take(n) {
        write!(page, "r")?;
        for number in row {
            write!(page, " {number}")?;
        }
        writeln!(page)?;
    }
    Ok(())
}

// The lines of the first n names: what each is, its number, and what stands in the text.
fn show_spans(
    page: &mut Page,
    what: &str,
    text: &[u8],
    spans: &[Span],
    n: usize,
) -> io::Result<()> {
    for (i, span) in spans.iter().take(n).enumerate() {
        write!(page, "{what} {i} ")?;
        let start = usize::from(span.start);
        if let Some(name) = text.get(start..start + usize::from(span.length)) {
            page.write_all(name)?;
        }
        writeln!(page)?;
    }
    Ok(())
}

// The lines of the names of predicates, and of variables.
pub fn show_names(page: &mut Page, text: &[u8], t: &Translation) -> io::Result<()> {
    show_spans(page, "predicate", text, &t.predicate_names, t.predicates)?;
    show_spans(page, "variable", text, &t.variable_names, t.variables)
}
