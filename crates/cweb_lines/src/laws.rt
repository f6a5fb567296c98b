//! What holds of every merge. These functions do nothing and exist for their contracts.

ghost use Rattle.cweb_lines.specs.laws.Laws.{ChangeFilesWithoutEntriesChangeNothing, ChangesReplaceLines};
ghost use Rattle.cweb_lines.specs.laws.Laws.{HasOneAnswer, IncludeLinesAreReplaced, LinesComeApart};
ghost use Rattle.cweb_lines.specs.laws.Laws.{UnmatchedEntriesAreReported, WebsWithoutIncludesAreTheirOwnLines};

/// Every merge ends and has one result, which is `merge`: any number of steps that is enough gives the same.
pub fn merge_has_one_answer()
    ensures { HasOneAnswer }
{}

/// A web without include lines and change file merges to its own lines, in order, numbered and without a fault.
pub fn web_without_includes_is_its_own_lines()
    ensures { WebsWithoutIncludesAreTheirOwnLines }
{}

/// Without a change file each line is independent. A plain line is emitted. An include line is a fault if it has no
/// name, is too deep or its file isn't there. Otherwise it is replaced as `include_line_is_replaced` says.
pub fn lines_come_apart()
    ensures { LinesComeApart }
{}

/// Without a change file, an include line whose file is there is replaced by the merged lines of that file. The lines
/// before and after it merge on their own. Only the depth, which is limited, and the file numbers continue.
pub fn include_line_is_replaced()
    ensures { IncludeLinesAreReplaced }
{}

/// A change file without code lines changes nothing: lines, faults and included files are the same as without it. Only
/// the numbers of included files are one higher, since the change file is file 1.
pub fn change_file_without_entries_changes_nothing()
    ensures { ChangeFilesWithoutEntriesChangeNothing }
{}

/// A change file with one entry, whose old lines are lines of the web, replaces them by its new lines, without a fault.
/// Each line keeps the place of its own file. Old lines may be include lines, which then open no file.
pub fn change_replaces_lines()
    ensures { ChangesReplaceLines }
{}

/// A first entry that matches no line of the web is reported once, at its `@x`, and changes nothing. The web has no
/// include lines here, and no empty line is between `@x` and the first old line.
pub fn unmatched_entry_is_reported()
    ensures { UnmatchedEntriesAreReported }
{}
