ghost use Rattle.std.specs.Prelude.{◌≡◌, IsOk, IfOk, IfErr, map};
ghost use Rattle.case_table.specs.Tables.{Ascend, StopsAt, names_of, value_of};
ghost use Rattle.case_table.specs.Rows.{row_value};
ghost use Rattle.std.specs.Cmp.Lexicographic.{slice_cmp};
ghost use Rattle.std.specs.Ordering.{nat_cmp};

use std::cmp::Ordering;
use std::marker::Model;

/// A name with its value.
#[derive(Clone, Copy, Debug)]
pub struct Row {
    pub name: &'static str,
    pub value: u16,
}

/// The row at `at` is the first whose name isn't above that of the row before it, in the order of bytes.
#[derive(Clone, Copy, Debug, PartialEq, Eq)]
pub struct NotAscending {
    pub at: usize,
}

/// Rows whose names ascend in the order of bytes. Contracts see the list of names and values.
#[derive(Debug, Drop)]
pub struct Table {
    rows: &'static [Row],
}

impl Model for Table {
    ghost use Rattle.std.specs.Prelude.{List, ℕ, map};
    ghost use Rattle.case_table.specs.Tables.{Ascend, names_of};
    ghost use Rattle.case_table.specs.Rows.{row_value};

    ghost Value = { List (List ℕ × ℕ) };

    ghost view = { λ t. map row_value t.rows.now };

    ghost invariant = { λ t. Ascend (names_of (map row_value t.rows.now)) };
}

impl Table {
    /// A table of these rows. Takes no memory.
    pub fn new(rows: &'static [Row]) -> Result<Table, NotAscending>
        ensures ok { IfOk result (λ table. table ≡ map row_value rows.now) }
        ensures ascends { IsOk result → Ascend (names_of (map row_value rows.now)) }
        ensures err { IfErr result (λ refused. StopsAt (names_of (map row_value rows.now)) refused.at) }
        ensures taken { Ascend (names_of (map row_value rows.now)) → IsOk result }
    {
        let mut at = 1;
        while at < rows.len() {
            if rows[at - 1].name >= rows[at].name {
                return Err(NotAscending { at });
            }
            at += 1;
        }
        Ok(Table { rows })
    }

    /// The value of the row of this name, if there is one. Takes no memory.
    pub fn find(&self, name: &[u8]) -> Option<u16>
        ensures { result ≡ value_of self.now name.now }
    {
        let found = self.rows.binary_search_by(
            |row: &Row| -> Ordering
                ensures { result ≡ slice_cmp nat_cmp row.now.name.now name.entry.now }
            { row.name.as_bytes().cmp(name) },
        );
        match found {
            Ok(at) => Some(self.rows[at].value),
            Err(_) => None,
        }
    }
}
