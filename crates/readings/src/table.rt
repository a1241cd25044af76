// A batch as a table: a row to each slot, and its null mask at setting 10.
use crate::mask::Mask;
use crate::say::Denied;
use crate::texts;
use crate::texts::Named;
use array_columns::Kind;
use array_columns::questions::entry_of;
use program_kit::parts;
use program_kit::view::View;
use std::alloc::Global;
use std::fmt;

// A slot's row.
#[derive(Drop)]
struct Row {
    id: usize,
    name: String,
    kind: Kind,
    value: String,
}

// The rows, the width of the names, and the mask.
#[derive(Drop)]
pub struct Table {
    rows: Vec<Row>,
    names: usize,
    mask: Mask,
}

// The row of slot i.
fn read_row(alloc: Global, view: &View<'_>, i: usize) -> Result<Row, Denied> {
    let v = view.value(i)?;
    let value = match v.value {
        None => String::from_str(alloc, "null")?,
        Some(bits) => texts::value(alloc, bits, v.kind)?,
    };
    Ok(Row {
        id: entry_of(v.id),
        name: texts::printed(alloc, parts::first(&v.name, v.size as usize))?,
        kind: v.kind,
        value,
    })
}

// The width of the columns' names, at least that of their heading.
fn name_width(view: &View<'_>) -> usize {
    let lent = view.lent;
    parts::first(&view.array.columns, view.array.fields)
        .iter()
        .filter_map(|c| parts::part(lent.names, c.name, c.size as usize))
        .map(|name| texts::characters(name))
        .fold(4, |width, n| width.max(n))
}

impl Table {
    pub fn new(alloc: Global, view: &View<'_>) -> Result<Table, Denied> {
        let mut rows = Vec::new(alloc);
        // By slot number, which is what an array is asked.
        for i in 0..view.array.count {
            rows.push(read_row(alloc, view, i)?)?;
        }
        Ok(Table {
            rows,
            names: name_width(view),
            mask: Mask::new(view, 10)?,
        })
    }

    // How many rows there are.
    pub fn len(&self) -> usize {
        self.rows.len()
    }
}

impl fmt::Display for Table {
    fn fmt<W: fmt::Write>(&self, f: &mut fmt::Formatter<W>) -> fmt::Result {
        let names = self.names;
        let values = self
            .rows
            .iter()
            .map(|r| r.value.len())
            .fold(5, |width, n| width.max(n));
        if !self.rows.is_empty() {
            writeln!(
                f,
                "      slot   id  {:<names$}  kind     {:>values$}  mark",
                "name", "value"
            )?;
        }
        for (i, r) in self.rows.iter().enumerate() {
            let id = r.id;
            let name = &r.name;
            let kind = Named(r.kind);
            let value = &r.value;
            let mark = if self.mask.is_null(i) { "null" } else { "-" };
            writeln!(
                f,
                "{i:>10}{id:>5}  {name:<names$}  {kind:<9}{value:>values$}  {mark}"
            )?;
        }
        write!(f, "   {}", self.mask)
    }
}
