// Each public type, field and variant.
use crate::tests::wanted::holds;
use cweb_lines::{FileId, FileNames, Place, SourceFault, SourceKind, Stop};
use cweb_out::{BinFault, PlanFault};
use cweb_scan::{ScanFault, ScanKind, Scanned};
use cweb_store::{How, NameFault, NameId, NameKind, NameRef, Part, PartKind, Parts, Store, Token};
use cweb_tools::Options;
use std::process::Abort;

pub fn place(file: u32, line: u32) -> Place {
    Place {
        file: FileId(file),
        line,
    }
}

fn source_fault(kind: SourceKind, place: Place, count: u32) -> SourceFault {
    SourceFault { kind, place, count }
}

fn scan_fault(kind: ScanKind, place: Place) -> ScanFault {
    ScanFault { kind, place }
}

fn name_fault(kind: NameKind, occurrence: NameRef) -> NameFault {
    NameFault { kind, occurrence }
}

// The stops by their numbers.
fn stop_number(stop: Stop) -> u32 {
    match stop {
        Stop::Usage => 1,
        Stop::WebNotOpened => 2,
        Stop::ChangeNotOpened => 3,
        Stop::ReadFault(file) => 4 + 0 * file.0.min(1),
        Stop::LineTooLong(FileId(_)) => 5,
        Stop::TooMuchText => 6,
        Stop::Memory => 7,
        Stop::OutNotOpened => 8,
        Stop::WriteFault => 9,
        Stop::LogFault => 10,
    }
}

pub fn token_number(token: Token<'_>) -> u32 {
    match token {
        Token::Word(_) => 1,
        Token::Number(_) => 2,
        Token::Literal(_) => 3,
        Token::Verbatim(_) => 4,
        Token::Punct(_) => 5,
        Token::Blank => 6,
        Token::Newline => 7,
        Token::Join => 8,
        Token::Defs => 9,
        Token::Name(NameRef(_)) => 10,
        Token::Head(_) => 11,
        Token::Tail(_) => 12,
        Token::Mark(Place { file: _, line: _ }) => 13,
    }
}

fn kind_number(kind: PartKind) -> u32 {
    match kind {
        PartKind::Unnamed => 1,
        PartKind::Named(NameRef(_)) => 2,
        PartKind::Macro => 3,
    }
}

fn fault_number(fault: &PlanFault) -> u32 {
    match fault {
        PlanFault::Cycle(names) => names.len().min(9) as u32,
        PlanFault::SameName(NameId(_)) => 10,
        PlanFault::BadName(None) => 11,
        PlanFault::BadName(Some(_)) => 12,
        PlanFault::Memory => 13,
    }
}

fn bin_number(fault: BinFault) -> u32 {
    match fault {
        BinFault::Memory => 1,
        BinFault::Device => 2,
    }
}

fn looks_at_scanned(made: &Scanned) -> u32 {
    let _store: &Store = &made.store;
    let _faults: &Vec<ScanFault> = &made.faults;
    let _starred: &Vec<u32> = &made.starred;
    made.sections
}

pub fn web_of(options: &Options) -> &str {
    let _shown = options.banner && options.progress && options.closing && options.statistics;
    let _second: &Option<String> = &options.second;
    let _change: &Option<String> = &options.change;
    let _main: &String = &options.main;
    options.web.as_str()
}

pub fn first_name<'a>(names: &'a FileNames) -> &'a str {
    if names.count() == 0 {
        return "";
    }
    names.get(FileId(0))
}

#[test]
fn types_fields_and_variants(rt: HostRuntime) {
    let here = place(0, 1);
    holds(&rt, source_fault(SourceKind::NoName, here, 0).count == 0);
    holds(
        &rt,
        scan_fault(ScanKind::DoubleAtInLimbo, here).place == here,
    );
    holds(
        &rt,
        name_fault(NameKind::Ambiguous, NameRef(0)).occurrence == NameRef(0),
    );
    holds(&rt, stop_number(Stop::LogFault) == 10);
    holds(&rt, token_number(Token::Mark(here)) == 13);
    holds(&rt, kind_number(PartKind::Macro) == 3);
    holds(&rt, fault_number(&PlanFault::Memory) == 13);
    holds(&rt, bin_number(BinFault::Device) == 2);
    holds(&rt, How::Full != How::Prefix);
}
