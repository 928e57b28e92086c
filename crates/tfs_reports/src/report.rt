//! Reports: rows with named members, as a table for people or as JSON for programs. A report keeps
//! only the text of its rows.

ghost use Rattle.std.specs.Prelude.{◌≡◌};

use crate::fault::ReportEnd;
use crate::output::write;
use crate::texts::cell;
use serde_json::Value;
use std::alloc::{AllocError, Global};
use tfs_printed::push_json;

/// The layout of a printed report.
#[derive(Clone, Copy, Debug, PartialEq, Eq)]
pub(crate) enum Layout {
    /// A table: the names of the columns, then a line of cells for each row.
    Table,
    /// One line of JSON: a list of the rows.
    List,
    /// One line of JSON for each row.
    Lines,
}

impl Layout {
    /// Returns the layout of a JSON list, or of a table.
    pub(crate) fn of(is_json: bool) -> Layout {
        if is_json { Layout::List } else { Layout::Table }
    }
}

/// A report so far. Each row is kept as JSON, or as its cells, each followed by a tab.
#[derive(Drop)]
pub(crate) struct Report {
    columns: &'static [&'static str],
    layout: Layout,
    widths: Vec<usize>,
    names: String,
    rows: Vec<String>,
}

impl Report {
    /// Returns a report without rows. A table shows these members of each row.
    pub(crate) fn new(
        alloc: Global,
        columns: &'static [&'static str],
        layout: Layout,
    ) -> Result<Report, AllocError> {
        let mut widths = Vec::with_capacity(alloc, columns.len())?;
        let mut names = String::new(alloc);
        add_names(&mut names, &mut widths, columns)?;
        Ok(Report {
            columns,
            layout,
            widths,
            names,
            rows: Vec::new(alloc),
        })
    }

    /// Returns true if the report has no rows.
    pub(crate) fn is_empty(&self) -> bool {
        self.rows.is_empty()
    }

    /// Adds a row.
    pub(crate) fn add(&mut self, alloc: Global, row: &Value) -> Result<(), AllocError> {
        let mut text = String::new(alloc);
        match self.layout {
            Layout::List | Layout::Lines => push_json(&mut text, row.to_string(alloc)?.as_str())?,
            Layout::Table => {
                let widths = self.widths.as_mut_slice();
                add_cells(alloc, &mut text, widths, self.columns, row)?;
            }
        }
        self.rows.push(text)?;
        Ok(())
    }

    /// Reverses the rows, and keeps at most the first `most` of them: the newest, if they were
    /// added oldest first.
    pub(crate) fn keep_newest(&mut self, most: usize) {
        self.rows.reverse();
        self.rows.truncate(most);
    }

    /// Returns the texts of the rows.
    pub(crate) fn into_rows(self) -> Vec<String>
        ensures value { result.items ≡ self.rows.items }
    {
        self.rows
    }

    /// Prints the report.
    pub(crate) fn print(self, rt: &HostRuntime) -> Result<(), ReportEnd> {
        let mut text = String::new(rt.alloc());
        match self.layout {
            Layout::List => add_list(&mut text, self.rows.as_slice())?,
            Layout::Lines => add_lines(&mut text, self.rows.as_slice())?,
            Layout::Table => {
                push_line(
                    rt.alloc(),
                    &mut text,
                    self.names.as_str(),
                    self.widths.as_slice(),
                )?;
                for row in &self.rows {
                    push_line(rt.alloc(), &mut text, row.as_str(), self.widths.as_slice())?;
                }
            }
        }
        write(rt, text.as_bytes())
    }
}

/// Adds the rows as a JSON list.
fn add_list(text: &mut String, rows: &[String]) -> Result<(), AllocError> {
    text.push('[')?;
    for (number, row) in rows.iter().enumerate() {
        if 0 < number {
            text.push(',')?;
        }
        text.push_str(row.as_str())?;
    }
    text.push_str("]\n")
}

/// Adds a line for each row.
fn add_lines(text: &mut String, rows: &[String]) -> Result<(), AllocError> {
    for row in rows {
        text.push_str(row.as_str())?;
        text.push('\n')?;
    }
    Ok(())
}

/// Adds the line of the column names, which are the first cells.
fn add_names(
    text: &mut String,
    widths: &mut Vec<usize>,
    columns: &[&str],
) -> Result<(), AllocError> {
    for column in columns {
        widths.push(column.len())?;
        text.push_str(column)?;
        text.push('\t')?;
    }
    Ok(())
}

/// Adds the line of a row's cells. A cell contains no tab and no line end, because these are
/// escaped.
fn add_cells(
    alloc: Global,
    text: &mut String,
    widths: &mut [usize],
    columns: &[&str],
    row: &Value,
) -> Result<(), AllocError> {
    for (at, column) in columns.iter().enumerate() {
        let own = cell(alloc, row, column)?;
        widen(widths, at, own.as_str().chars().count());
        text.push_str(own.as_str())?;
        text.push('\t')?;
    }
    Ok(())
}

/// Widens a column to at least this width.
fn widen(widths: &mut [usize], at: usize, width: usize) {
    if let Some(own) = widths.get_mut(at) {
        *own = width.max(*own);
    }
}

/// Adds the line of these cells, without trailing blanks.
fn push_line(
    alloc: Global,
    table: &mut String,
    cells: &str,
    widths: &[usize],
) -> Result<(), AllocError> {
    let mut line = String::new(alloc);
    push_cells(&mut line, cells, widths)?;
    table.push_str(line.as_str().trim_end_matches(' '))?;
    table.push('\n')
}

/// Adds cells, each padded to its column's width.
fn push_cells(line: &mut String, cells: &str, widths: &[usize]) -> Result<(), AllocError> {
    for (own, width) in cells.split('\t').zip(widths.iter()) {
        push_cell(line, own, *width)?;
    }
    Ok(())
}

/// Adds a cell, blanks up to its column's width, and two more.
fn push_cell(line: &mut String, own: &str, width: usize) -> Result<(), AllocError> {
    line.push_str(own)?;
    for _ in own.chars().count()..width {
        line.push(' ')?;
    }
    line.push_str("  ")
}
