//! How the values that stand in lists are written.
ghost use Rattle.std.specs.Prelude.{◌≡◌};

use crate::lists::Writable;
use crate::pieces::{put_class, put_hex, put_number, put_quoted};
use crate::values::{put_change, put_pair, put_state_change};
use ais_values::{ClassId, Name};
use ntf_types::{Change, Pair, StateChange};
use std::alloc::AllocError;

/// Event types.
pub(crate) struct HexWords;

impl Writable for HexWords {
    ghost use Rattle.script_grammar.specs.Values.{hex_word};

    type Value = u16;

    ghost text = { hex_word };

    fn write(out: &mut Vec<u8>, value: &u16) -> Result<(), AllocError> {
        put_hex(out, *value)
    }
}

/// Numbers that fit 16 bits.
pub(crate) struct Numbers16;

impl Writable for Numbers16 {
    ghost use Rattle.std.specs.Fmt.{decimal};

    type Value = u16;

    ghost text = { decimal };

    fn write(out: &mut Vec<u8>, value: &u16) -> Result<(), AllocError> {
        put_number(out, u64::from(*value))
    }
}

/// Numbers that fit 64 bits.
pub(crate) struct Numbers64;

impl Writable for Numbers64 {
    ghost use Rattle.std.specs.Fmt.{decimal};

    type Value = u64;

    ghost text = { decimal };

    fn write(out: &mut Vec<u8>, value: &u64) -> Result<(), AllocError> {
        put_number(out, *value)
    }
}

/// Names between quotation marks.
pub(crate) struct Names;

impl Writable for Names {
    ghost use Rattle.script_grammar.specs.Writing.{quoted_text};

    type Value = Name;

    ghost text = { quoted_text };

    fn write(out: &mut Vec<u8>, value: &Name) -> Result<(), AllocError> {
        put_quoted(out, value.as_slice())
    }
}

/// Classes.
pub(crate) struct Classes;

impl Writable for Classes {
    ghost use Rattle.script_language.specs.Printing.{class_text};

    type Value = ClassId;

    ghost text = { class_text };

    fn write(out: &mut Vec<u8>, value: &ClassId) -> Result<(), AllocError> {
        put_class(out, *value)
    }
}

/// Values under numbers.
pub(crate) struct Pairs;

impl Writable for Pairs {
    ghost use Rattle.script_language.specs.Printing.{pair_text};

    type Value = Pair;

    ghost text = { pair_text };

    fn write(out: &mut Vec<u8>, value: &Pair) -> Result<(), AllocError> {
        put_pair(out, value)
    }
}

/// Changes of attributes.
pub(crate) struct Changes;

impl Writable for Changes {
    ghost use Rattle.script_language.specs.Printing.{change_text};

    type Value = Change;

    ghost text = { change_text };

    fn write(out: &mut Vec<u8>, value: &Change) -> Result<(), AllocError> {
        put_change(out, value)
    }
}

/// Changes of states.
pub(crate) struct StateChanges;

impl Writable for StateChanges {
    ghost use Rattle.script_language.specs.Printing.{state_change_text};

    type Value = StateChange;

    ghost text = { state_change_text };

    fn write(out: &mut Vec<u8>, value: &StateChange) -> Result<(), AllocError> {
        put_state_change(out, value)
    }
}
