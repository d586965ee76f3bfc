//! Tables that pair the codes of the interface with their printed names.
ghost use Rattle.std.specs.Prelude.{◌≡◌, ◌↔◌, ℕ, List, IsTrue, IsNone, IsSomeAnd, option_map};
ghost use Rattle.std.specs.List.{find};
ghost use Rattle.ais_values.specs.Codes.{HasRow, are_apart, has_name, has_code};

use crate::Duplicate;
use std::alloc::{AllocError, Global};
use std::convert::AsStr;

/// A code of the interface and its printed name.
#[derive(Clone, Copy, Debug, PartialEq, Eq)]
pub struct CodeRow<S = &'static str> {
    pub code: u32,
    pub name: S,
}

impl<S: Copy> Duplicate for CodeRow<S> {
    fn copy(&self, _alloc: Global) -> Result<Self, AllocError> {
        Ok(*self)
    }
}

/// The first row of this name.
fn first_named<'a, S: AsStr>(rows: &'a [CodeRow<S>], name: &str) -> Option<&'a CodeRow<S>>
    ensures { option_map (λ row. row.now) result ≡ find (has_name S.text name.now) rows.now }
{
    rows.iter().find(|row| row.name.as_str() == name)
}

/// The first row of this code.
fn first_coded<S>(rows: &[CodeRow<S>], code: u32) -> Option<&CodeRow<S>>
    ensures { option_map (λ row. row.now) result ≡ find (has_code code) rows.now }
{
    rows.iter().find(|row| row.code == code)
}

/// The code of the row with this name.
pub fn code_of<S: AsStr, const N: usize>(table: &[CodeRow<S>; N], name: &str) -> Option<u32>
    requires { IsTrue (are_apart S.text table.now) }
    ensures found { (code : ℕ) → (result ≡ Some code) ↔ HasRow S.text table.now name.now code }
    ensures absent { IsNone result ↔ ((code : ℕ) → ¬ HasRow S.text table.now name.now code) }
{
    match first_named(table.as_slice(), name) {
        Some(row) => Some(row.code),
        None => None,
    }
}

/// The name of the row with this code. It is the inverse of [`code_of`]: both speak of the same rows.
pub fn name_of<S: AsStr + Copy, const N: usize>(table: &[CodeRow<S>; N], code: u32) -> Option<S>
    requires { IsTrue (are_apart S.text table.now) }
    ensures found { (name : List ℕ) → IsSomeAnd result (λ text. S.text text ≡ name)
        ↔ HasRow S.text table.now name code }
    ensures absent { IsNone result ↔ ((name : List ℕ) → ¬ HasRow S.text table.now name code) }
{
    match first_coded(table.as_slice(), code) {
        Some(row) => Some(row.name),
        None => None,
    }
}
