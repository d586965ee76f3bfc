//! The kinds of values that stand in lists.
ghost use Rattle.std.specs.Prelude.{◌≡◌};

use crate::lists::Element;
use crate::numbers::{number16, number64};
use crate::quoted::{hex_word, quoted_name};
use crate::trouble::Trouble;
use crate::values::{change, class, pair, state_change};
use ais_values::{ClassId, Name};
use ntf_types::{Change, Pair, StateChange};
use std::alloc::Global;

/// Event types.
pub(crate) struct HexWords;

impl Element for HexWords {
    ghost use Rattle.script_grammar.specs.ValueReading.{hex_word_at};

    type Value = u16;

    ghost at = { hex_word_at };

    fn read(_alloc: Global, bytes: &[u8]) -> Result<(u16, &[u8]), Trouble> {
        hex_word(bytes).ok_or(Trouble::Bad)
    }
}

/// Numbers that fit 16 bits.
pub(crate) struct Numbers16;

impl Element for Numbers16 {
    ghost use Rattle.script_language.specs.ValueReading.{number16_at};

    type Value = u16;

    ghost at = { number16_at };

    fn read(_alloc: Global, bytes: &[u8]) -> Result<(u16, &[u8]), Trouble> {
        number16(bytes).ok_or(Trouble::Bad)
    }
}

/// Numbers that fit 64 bits.
pub(crate) struct Numbers64;

impl Element for Numbers64 {
    ghost use Rattle.script_language.specs.ValueReading.{number64_at};

    type Value = u64;

    ghost at = { number64_at };

    fn read(_alloc: Global, bytes: &[u8]) -> Result<(u64, &[u8]), Trouble> {
        number64(bytes).ok_or(Trouble::Bad)
    }
}

/// Names between quotation marks.
pub(crate) struct Names;

impl Element for Names {
    ghost use Rattle.script_language.specs.ValueReading.{quoted_name_at};

    type Value = Name;

    ghost at = { quoted_name_at };

    fn read(alloc: Global, bytes: &[u8]) -> Result<(Name, &[u8]), Trouble> {
        quoted_name(alloc, bytes)
    }
}

/// Classes.
pub(crate) struct Classes;

impl Element for Classes {
    ghost use Rattle.script_language.specs.ValueReading.{class_at};

    type Value = ClassId;

    ghost at = { class_at };

    fn read(_alloc: Global, bytes: &[u8]) -> Result<(ClassId, &[u8]), Trouble> {
        class(bytes).ok_or(Trouble::Bad)
    }
}

/// Values under numbers.
pub(crate) struct Pairs;

impl Element for Pairs {
    ghost use Rattle.script_language.specs.ValueReading.{pair_at};

    type Value = Pair;

    ghost at = { pair_at };

    fn read(alloc: Global, bytes: &[u8]) -> Result<(Pair, &[u8]), Trouble> {
        pair(alloc, bytes)
    }
}

/// Changes of attributes.
pub(crate) struct Changes;

impl Element for Changes {
    ghost use Rattle.script_language.specs.ValueReading.{change_at};

    type Value = Change;

    ghost at = { change_at };

    fn read(alloc: Global, bytes: &[u8]) -> Result<(Change, &[u8]), Trouble> {
        change(alloc, bytes)
    }
}

/// Changes of states.
pub(crate) struct StateChanges;

impl Element for StateChanges {
    ghost use Rattle.script_language.specs.ValueReading.{state_change_at};

    type Value = StateChange;

    ghost at = { state_change_at };

    fn read(_alloc: Global, bytes: &[u8]) -> Result<(StateChange, &[u8]), Trouble> {
        state_change(bytes).ok_or(Trouble::Bad)
    }
}
