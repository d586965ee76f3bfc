//! Sets of filters.
ghost use Rattle.std.specs.Prelude.{◌≡◌, IfOk};
ghost use Rattle.script.specs.Gives.{Gives};
ghost use Rattle.script_grammar.specs.Reading.{maybe};
ghost use Rattle.script.specs.Parts.{subjects_at, reasons_at};
ghost use Rattle.script_language.specs.FilterReading.{filter_at, filters_at};

use crate::elements::{Classes, HexWords, Names, Numbers16};
use crate::lists::maybe_list;
use crate::numbers::skip;
use crate::trouble::Trouble;
use ais_values::{ClassId, Name, Seq};
use ntf_filters::{Filter, FilterSet};
use std::alloc::Global;

/// What a filter asks of types, objects, notifiers and classes.
#[derive(Drop)]
struct Subjects {
    types: Seq<u16>,
    objects: Seq<Name>,
    notifiers: Seq<Name>,
    classes: Seq<ClassId>,
}

/// `[types=TYPES] [objs=NAMES] [bys=NAMES] [classes=CLASSES]`, with a blank before each
#[tactic(auto, unfolding(crate::specs::Parts::subjects_at))]
fn filter_subjects(alloc: Global, bytes: &[u8]) -> Result<(Subjects, &[u8]), Trouble>
    ensures { Gives (λ found. (found.0, found.1.now)) result (subjects_at bytes.now) }
{
    let (types, rest) = maybe_list::<HexWords>(alloc, bytes, b" types=")?;
    let (objects, rest) = maybe_list::<Names>(alloc, rest, b" objs=")?;
    let (notifiers, rest) = maybe_list::<Names>(alloc, rest, b" bys=")?;
    let (classes, rest) = maybe_list::<Classes>(alloc, rest, b" classes=")?;
    let subjects = Subjects {
        types,
        objects,
        notifiers,
        classes,
    };
    Ok((subjects, rest))
}

/// What a filter asks of sources, causes and severities.
#[derive(Drop)]
struct Reasons {
    sources: Seq<u16>,
    causes: Seq<u16>,
    severities: Seq<u16>,
}

/// `[sources=NS] [causes=NS] [sevs=NS]`, with a blank before each
#[tactic(auto, unfolding(crate::specs::Parts::reasons_at))]
fn filter_reasons(alloc: Global, bytes: &[u8]) -> Result<(Reasons, &[u8]), Trouble>
    ensures { Gives (λ found. (found.0, found.1.now)) result (reasons_at bytes.now) }
{
    let (sources, rest) = maybe_list::<Numbers16>(alloc, bytes, b" sources=")?;
    let (causes, rest) = maybe_list::<Numbers16>(alloc, rest, b" causes=")?;
    let (severities, rest) = maybe_list::<Numbers16>(alloc, rest, b" sevs=")?;
    let reasons = Reasons {
        sources,
        causes,
        severities,
    };
    Ok((reasons, rest))
}

/// `[types=TYPES] [objs=NAMES] [bys=NAMES] [classes=CLASSES] [sources=NS] [causes=NS] [sevs=NS]`, with a blank before each
fn filter(alloc: Global, bytes: &[u8]) -> Result<(Filter, &[u8]), Trouble>
    ensures { Gives (λ found. (found.0, found.1.now)) result (filter_at bytes.now) }
{
    let (subjects, rest) = filter_subjects(alloc, bytes)?;
    let (reasons, rest) = filter_reasons(alloc, rest)?;
    let filter = Filter {
        types: subjects.types,
        objects: subjects.objects,
        notifiers: subjects.notifiers,
        classes: subjects.classes,
        sources: reasons.sources,
        causes: reasons.causes,
        severities: reasons.severities,
    };
    Ok((filter, rest))
}

/// The filter behind the words of a type, where they stand.
fn maybe_filter<'a>(
    alloc: Global,
    bytes: &'a [u8],
    words: &[u8],
) -> Result<(Option<Filter>, &'a [u8]), Trouble>
    ensures { Gives (λ found. (found.0, found.1.now)) result (maybe words.now filter_at bytes.now) }
{
    match skip(bytes, words) {
        Some(rest) => {
            let (filter, rest) = filter(alloc, rest)?;
            Ok((Some(filter), rest))
        }
        None => Ok((None, bytes)),
    }
}

/// The same beside what was read before. Where nothing is read, what was read before is let go here, once for all its types:
/// a set of filters is wide, and where each `?` lets go what is there so far, the ways out are most of the function.
fn beside_filter<'a, A: Drop>(
    alloc: Global,
    before: A,
    bytes: &'a [u8],
    words: &[u8],
) -> Result<((A, Option<Filter>), &'a [u8]), Trouble>
    ensures gives { Gives (λ found. (found.0.1, found.1.now)) result
        (maybe words.now filter_at bytes.now) }
    ensures before { IfOk result (λ found. found.0.0 ≡ before) }
{
    match maybe_filter(alloc, bytes, words) {
        Ok((filter, rest)) => Ok(((before, filter), rest)),
        Err(trouble) => Err(trouble),
    }
}

/// A filter for each type at most, in the types' order.
#[tactic(auto, unfolding(script_language::specs::FilterReading::filters_at))]
pub(crate) fn filters(alloc: Global, bytes: &[u8]) -> Result<(FilterSet, &[u8]), Trouble>
    ensures { Gives (λ found. (found.0, found.1.now)) result (filters_at bytes.now) }
{
    let (read, rest) = maybe_filter(alloc, bytes, b" filter objects")?;
    let (read, rest) = beside_filter(alloc, read, rest, b" filter attributes")?;
    let (read, rest) = beside_filter(alloc, read, rest, b" filter states")?;
    let (read, rest) = beside_filter(alloc, read, rest, b" filter alarm")?;
    let (read, rest) = beside_filter(alloc, read, rest, b" filter security")?;
    let ((((objects, attributes), states), alarms), security) = read;
    let filters = FilterSet {
        objects,
        attributes,
        states,
        alarms,
        security,
    };
    Ok((filters, rest))
}
