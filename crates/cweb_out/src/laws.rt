//! Laws of expansion, cycles and printing for any web. Each function exists for its contract and does nothing.

ghost use Rattle.cweb_out.specs.laws.Laws.{DepthAboveTheRankChangesNothing, ExpansionReplacesUsesAlone};
ghost use Rattle.cweb_out.specs.laws.Laws.{EachTokenIsPrinted, FilesHaveWholeLines, FrameStacksAreRanked, PrintGoesOn};
ghost use Rattle.cweb_out.specs.laws.Laws.{OnlySectionCommentsComeBetweenJoinedTokens, RanksAreBelowTheNames};
ghost use Rattle.cweb_out.specs.laws.Laws.{RefusedCyclesAreCycles};

/// Uses are replaced and other tokens stay, in order. Ranks are below the number of names. A depth above the ranks of a
/// list changes nothing. The ranks of the owners of frames decrease, so that a stack has one frame more than names.
pub fn expansion()
    ensures replaces_uses_alone { ExpansionReplacesUsesAlone }
    ensures ranks_are_below_the_names { RanksAreBelowTheNames }
    ensures same_above_the_rank { DepthAboveTheRankChangesNothing }
    ensures frame_stacks_are_ranked { FrameStacksAreRanked }
{}

/// A plan that is refused for a cycle names one: the last name is the first one, and each uses the next one. The first
/// output whose expansion doesn't end reaches it.
pub fn cycles()
    ensures { RefusedCyclesAreCycles }
{}

/// A concatenation prints the first list, then the second one. A token is printed once, where it is. Between a Join and the next token that is no layout,
/// section comment or Join, only section comments are printed. A file is empty or ends in a newline.
pub fn printing()
    ensures goes_on { PrintGoesOn }
    ensures each_token { EachTokenIsPrinted }
    ensures section_comments_between_joined { OnlySectionCommentsComeBetweenJoinedTokens }
    ensures whole_lines { FilesHaveWholeLines }
{}
