//! Laws of spellings, and of names and parts for any calls of a builder. Each function exists for its contract; only the
//! first runs code.

ghost use Rattle.std.specs.Prelude.{◌≡◌, ◌<◌, length, map, IfOk};
ghost use Rattle.cweb_store.specs.laws.Laws.{contents, AbbreviationsStay, EarlierNamesDecide};
ghost use Rattle.cweb_store.specs.laws.Laws.{FullNamesResolveToThemselves, OccurrencesAreThoseOfCalls};
ghost use Rattle.cweb_store.specs.laws.Laws.{AbbreviationsBeginTheirNames, NamesAreDistinct, OneFaultForNoName};
ghost use Rattle.cweb_store.specs.laws.Laws.{FilesAreNamesOfOccurrences, NamesDecideResolutions, JoiningConcatenates};
ghost use Rattle.cweb_store.specs.laws.Laws.{OnlyLayoutIsDropped, TokensAreThosePushed, accepted_calls, AcceptsCalls};
ghost use Rattle.cweb_store.specs.Calls.{empty, finished};
ghost use Rattle.cweb_store.specs.laws.Laws.{SpellingsAreSqueezed};
ghost use Rattle.cweb_store.specs.surface.Tokens.{too_many};

use crate::{Answered, Builder, Call, Store};
use std::alloc::{AllocError, Global};

/// Makes the calls that the state allows, and counts the others as refused. The store is that of the calls with `Ok`.
pub fn store_holds_calls_answered_ok<'a>(
    alloc: Global,
    calls: &[Call<'a>],
) -> Result<(Vec<Answered<'a>>, Store), AllocError>
    requires few { length calls.now < too_many }
    ensures answers { IfOk result (λ made. map (λ a. a.call) made.0.items ≡ calls.now) }
    ensures taken { IfOk result (λ made. AcceptsCalls empty (accepted_calls made.0.items)) }
    ensures store { IfOk result
        (λ made. made.1 ≡ finished (contents (accepted_calls made.0.items))) }
{
    let mut builder = Builder::new(alloc);
    let mut answers = Vec::new(alloc);
    for call in calls {
        let is_ok = call.make_in_place(&mut builder);
        answers.push(Answered { call: *call, is_ok })?;
    }
    let store = builder.finish()?;
    Ok((answers, store))
}

/// White space in a spelling is single blanks between other bytes, which stay in order. Any span of white space counts
/// as one blank, and a text with single blanks stays.
pub fn spellings_are_squeezed()
    ensures { SpellingsAreSqueezed }
{}

/// Names are distinct. A full one resolves to itself, an abbreviation to a name that it begins: the only earlier one,
/// whatever comes later. Other names change nothing. Without a name there is one fault.
pub fn names()
    ensures names_are_distinct { NamesAreDistinct }
    ensures full_names_resolve_to_themselves { FullNamesResolveToThemselves }
    ensures abbreviations_begin_their_names { AbbreviationsBeginTheirNames }
    ensures abbreviations_stay { AbbreviationsStay }
    ensures earlier_names_decide { EarlierNamesDecide }
    ensures names_decide_resolutions { NamesDecideResolutions }
    ensures one_fault_for_no_name { OneFaultForNoName }
{}

/// The occurrences are those of the calls, in order. A file name is one that some file occurrence resolves to, and is in
/// the list once.
pub fn occurrences()
    ensures are_those_of_calls { OccurrencesAreThoseOfCalls }
    ensures yield_the_file_names { FilesAreNamesOfOccurrences }
{}

/// The tokens of the parts are those that were pushed, in order, less dropped layout. Dropping layout and closing remove
/// only trailing layout. A macro keeps its first two tokens, and no layout after them. The parts of a name join to their
/// concatenation, in order.
pub fn parts()
    ensures tokens_are_those_pushed { TokensAreThosePushed }
    ensures joining_concatenates { JoiningConcatenates }
    ensures only_layout_is_dropped { OnlyLayoutIsDropped }
{}
