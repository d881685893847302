//! Tables of rows: how they are written, what is told of them.

use crate::question::{Question, ask, named};
use crate::texts::{Mark, Texts, put};
use crate::trouble::Trouble;
use std::alloc::{AllocError, Global};

/// What stands in the lines behind the name of a table, and how many of its rows agree.
#[derive(Drop)]
struct Table {
    name: String,
    question: Option<Question>,
    before: String,
    behind: String,
    answer: String,
    rows: u64,
    right: u64,
}

/// The lines that are read, and what is told of them.
#[derive(Drop)]
pub struct Tables {
    texts: Texts,
    table: Option<Table>,
    report: String,
}

fn begun(alloc: Global, name: &str) -> Result<Table, AllocError> {
    Ok(Table {
        name: String::from_str(alloc, name)?,
        question: None,
        before: String::new(alloc),
        behind: String::new(alloc),
        answer: String::new(alloc),
        rows: 0,
        right: 0,
    })
}

// What is asked by a row, with what stands around its first part.
fn put_asked(
    out: &mut String,
    alloc: Global,
    texts: &Texts,
    table: &Table,
    row: &str,
) -> Result<Mark, Trouble> {
    let (first, rest) = match row.split_once(" | ") {
        Some((first, rest)) => (first, Some(rest)),
        None => (row, None),
    };
    let mut mark = put(out, alloc, texts, &table.before, Mark::Is(None))?;
    mark = put(out, alloc, texts, first, mark)?;
    mark = put(out, alloc, texts, &table.behind, mark)?;
    if let Some(rest) = rest {
        out.push_str(" | ")?;
        mark = put(out, alloc, texts, rest, mark)?;
    }
    Ok(mark)
}

fn put_wanted(
    out: &mut String,
    alloc: Global,
    texts: &Texts,
    want: &str,
    mark: Mark,
) -> Result<(), Trouble> {
    let place = match mark {
        Mark::Is(place) => place,
        Mark::StandsFor(place) => place,
    };
    put(out, alloc, texts, want, Mark::StandsFor(place))?;
    Ok(())
}

// What a row asks and what it wants.
fn parts<'a>(table: &'a Table, row: &'a str) -> (&'a str, &'a str) {
    match row.rsplit_once(" -> ") {
        Some(parts) => parts,
        None => (row, table.answer.as_str()),
    }
}

// Appends the answer to a row. Tells whether it is what the row wants.
fn answered(
    out: &mut String,
    alloc: Global,
    texts: &Texts,
    table: &Table,
    row: &str,
) -> Result<bool, Trouble> {
    let Some(question) = table.question else {
        return Err(Trouble::NotUnderstood);
    };
    let (text, want) = parts(table, row);
    let mut asked = String::new(alloc);
    let mark = put_asked(&mut asked, alloc, texts, table, text)?;
    ask(out, alloc, question, &asked)?;
    let mut wanted = String::new(alloc);
    put_wanted(&mut wanted, alloc, texts, want, mark)?;
    Ok(wanted.as_str() == out.as_str())
}

// Appends a text in one line.
fn put_line(out: &mut String, text: &str) -> Result<(), AllocError> {
    let mut lines = text.split('\n');
    if let Some(first) = lines.next() {
        out.push_str(first)?;
    }
    for line in lines {
        out.push_str("\\n")?;
        out.push_str(line)?;
    }
    out.push_str("\n")
}

fn put_all(out: &mut String, texts: &[&str]) -> Result<(), AllocError> {
    for text in texts {
        out.push_str(text)?;
    }
    Ok(())
}

// Appends a row that does not agree, with what came.
fn put_wrong(out: &mut String, table: &Table, row: &str, came: &str) -> Result<(), AllocError> {
    put_all(out, &[table.name.as_str(), ": ", row, "\n  came: "])?;
    put_line(out, came)
}

// Appends how many rows of a table agree.
fn put_end(out: &mut String, alloc: Global, table: &Table) -> Result<(), AllocError> {
    let right = table.right.to_string(alloc)?;
    let rows = table.rows.to_string(alloc)?;
    put_all(
        out,
        &[
            table.name.as_str(),
            ": ",
            right.as_str(),
            " of ",
            rows.as_str(),
            " rows agree\n",
        ],
    )
}

// Asks a row of a table.
fn read_row(
    report: &mut String,
    alloc: Global,
    texts: &Texts,
    table: &mut Table,
    row: &str,
) -> Result<(), AllocError> {
    let mut came = String::new(alloc);
    table.rows = table.rows.saturating_add(1);
    match answered(&mut came, alloc, texts, table, row) {
        Ok(true) => {
            table.right = table.right.saturating_add(1);
            Ok(())
        }
        Ok(false) => put_wrong(report, table, row, came.as_str()),
        Err(Trouble::NotUnderstood) => put_wrong(report, table, row, "not understood"),
        Err(Trouble::OutOfMemory) => Err(AllocError),
    }
}

// A line that says something of a table.
fn read_head(table: &mut Table, line: &str) -> Result<(), Trouble> {
    if let Some(question) = line.strip_prefix("= ") {
        table.question = named(question);
    } else if let Some(before) = line.strip_prefix("before: ") {
        table.before.push_str(before)?;
    } else if let Some(behind) = line.strip_prefix("behind: ") {
        table.behind.push_str(behind)?;
    } else if let Some(answer) = line.strip_prefix("answer: ") {
        table.answer.push_str(answer)?;
    } else {
        return Err(Trouble::NotUnderstood);
    }
    Ok(())
}

// A line that names a text, or says more of the last one.
fn read_text(texts: &mut Texts, alloc: Global, line: &str) -> Result<bool, Trouble> {
    if let Some(rest) = line.strip_prefix("text ") {
        match rest.split_once(": ") {
            Some((name, text)) => begin_with(texts, alloc, name, text)?,
            None => texts.begin(alloc, rest)?,
        }
    } else if let Some(text) = line.strip_prefix("| ") {
        texts.add_line(text)?;
    } else if line == "|" {
        texts.add_line("")?;
    } else {
        return Ok(false);
    }
    Ok(true)
}

// Adds a text of one line, with what stands in it.
fn begin_with(texts: &mut Texts, alloc: Global, name: &str, text: &str) -> Result<(), Trouble> {
    let mut whole = String::new(alloc);
    put(&mut whole, alloc, texts, text, Mark::StandsFor(None))?;
    texts.begin(alloc, name)?;
    texts.add_line(&whole)
}

impl Tables {
    /// No tables.
    pub fn new(alloc: Global) -> Tables {
        Tables {
            texts: Texts::new(alloc),
            table: None,
            report: String::new(alloc),
        }
    }

    // Tells of the table that has ended.
    fn end(&mut self, alloc: Global) -> Result<(), AllocError> {
        match &self.table {
            Some(table) => put_end(&mut self.report, alloc, table),
            None => Ok(()),
        }
    }

    // A line that is no row and does not begin a table.
    fn read_other(&mut self, alloc: Global, line: &str) -> Result<(), Trouble> {
        if read_text(&mut self.texts, alloc, line)? {
            return Ok(());
        }
        match &mut self.table {
            Some(table) => read_head(table, line),
            None => Err(Trouble::NotUnderstood),
        }
    }

    // A line that says nothing counts as a row that does not agree.
    fn read_row(&mut self, alloc: Global, row: &str) -> Result<(), AllocError> {
        match &mut self.table {
            Some(table) => read_row(&mut self.report, alloc, &self.texts, table, row),
            None => put_all(&mut self.report, &["no table: ", row, "\n"]),
        }
    }

    // A line that is not understood.
    fn refuse(&mut self, line: &str) -> Result<(), AllocError> {
        if let Some(table) = &mut self.table {
            table.rows = table.rows.saturating_add(1);
        }
        put_all(&mut self.report, &["not understood: ", line, "\n"])
    }

    /// Reads a line.
    pub fn read(&mut self, alloc: Global, line: &str) -> Result<(), AllocError> {
        if line.is_empty() || line.starts_with("#") {
            return Ok(());
        }
        if let Some(row) = line.strip_prefix("  ") {
            return self.read_row(alloc, row);
        }
        if let Some(name) = line.strip_prefix("== ") {
            self.end(alloc)?;
            self.table = Some(begun(alloc, name)?);
            return Ok(());
        }
        match self.read_other(alloc, line) {
            Ok(()) => Ok(()),
            Err(Trouble::NotUnderstood) => self.refuse(line),
            Err(Trouble::OutOfMemory) => Err(AllocError),
        }
    }

    /// What is told of all tables.
    pub fn finish(self, alloc: Global) -> Result<String, AllocError> {
        let mut tables = self;
        tables.end(alloc)?;
        Ok(tables.report)
    }
}
