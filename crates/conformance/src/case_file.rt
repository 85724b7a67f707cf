//! Cases out of a file of cases (profile).
ghost use Rattle.std.specs.Prelude.{◌≡◌, IfOk, List};
ghost use Rattle.uecp_text.specs.Input.{said};
ghost use Rattle.conformance.specs.declared.case.Case.{Case as CaseValue};
ghost use Rattle.conformance.specs.declared.line.Line.TheVariants.{Form, Profile, Pieces, Does};
ghost use Rattle.conformance.specs.declared.case_file.Open.TheVariants.{Start, Whole};
ghost use Rattle.conformance.specs.Cases.{Spells, Takes, Joins, so_far, all_lines};

use crate::case::{Case, Step};
use crate::line::{CaseFault, Line, line_of};
use std::alloc::Global;
use uecp_text::{first_input_line, text_of};

/// Why a text is no file of cases: the number of a line, counted from 1, and what is wrong with it. Where a line is
/// missing at the end it is the number of the line behind the last.
#[derive(Clone, Copy, Debug, PartialEq, Eq)]
pub struct Refusal {
    /// The line.
    pub line: usize,
    /// What is wrong with it.
    pub fault: CaseFault,
}

/// What the lines so far have begun.
#[derive(Drop)]
enum Open<'a> {
    /// Nothing: the form is to come.
    Start,
    /// Nothing: a case is to come.
    Between,
    /// A case of this name.
    Named(&'a [u8]),
    /// A case of this name and group.
    Grouped(&'a [u8], &'a [u8]),
    /// A case that may get more steps.
    Whole(Case<'a>),
}

/// The cases of a file of cases, in order.
///
/// Errors: `Refusal`, with the first line that can't be read or may not stand where it does; or where memory was
/// wanting.
pub fn read_cases<'a>(alloc: Global, text: &'a [u8]) -> Result<Vec<Case<'a>>, Refusal>
    ensures spelled { IfOk result (λ cases. Spells text.now cases.items) }
{
    let mut cases = Vec::new(alloc);
    let mut begun = Open::Start;
    let mut rest = text;
    let mut line = 1;
    while !rest.is_empty() {
        let (first, more) = first_input_line(rest);
        begun = match take_line(alloc, first, begun, &mut cases) {
            Ok(next) => next,
            Err(fault) => return Err(Refusal { line, fault }),
        };
        rest = more;
        line += 1;
    }
    match finish(begun, &mut cases) {
        Ok(()) => Ok(cases),
        Err(fault) => Err(Refusal { line, fault }),
    }
}

/// Takes a line of the file into what is open.
fn take_line<'a>(
    alloc: Global,
    line: &'a [u8],
    begun: Open<'a>,
    cases: &mut Vec<Case<'a>>,
) -> Result<Open<'a>, CaseFault>
    ensures { IfOk result (λ next. Takes (said line.now) (so_far cases.old.items begun.entry)
        (so_far cases.new.items next)) }
{
    match text_of(line) {
        None => Ok(begun),
        Some(text) => match line_of(alloc, text) {
            Ok(line) => join(alloc, line, begun, cases),
            Err(fault) => Err(fault),
        },
    }
}

/// Joins a line to what is open.
fn join<'a>(
    alloc: Global,
    line: Line<'a>,
    begun: Open<'a>,
    cases: &mut Vec<Case<'a>>,
) -> Result<Open<'a>, CaseFault>
    ensures { IfOk result (λ next. Joins line.entry (so_far cases.old.items begun.entry)
        (so_far cases.new.items next)) }
{
    match (begun, line) {
        (Open::Start, Line::Form) => begin(cases),
        (Open::Between, Line::Name(name)) => Ok(Open::Named(name)),
        (Open::Named(name), Line::Group(group)) => Ok(Open::Grouped(name, group)),
        (Open::Grouped(name, group), Line::Rule(rule)) => Ok(Open::Whole(Case {
            name,
            group,
            rule,
            profile: false,
            pieces: None,
            steps: Vec::new(alloc),
        })),
        (Open::Whole(case), line) => grow(line, case, cases),
        _ => Err(CaseFault::OutOfPlace),
    }
}

/// The form was told, and no case yet.
fn begin<'a>(cases: &mut Vec<Case<'a>>) -> Result<Open<'a>, CaseFault>
    ensures { IfOk result (λ next. Joins Form (so_far cases.old.items Start) (so_far cases.new.items next)) }
{
    if cases.is_empty() {
        Ok(Open::Between)
    } else {
        Err(CaseFault::OutOfPlace)
    }
}

/// Joins a line to a case, or ends it where another begins.
fn grow<'a>(
    line: Line<'a>,
    case: Case<'a>,
    cases: &mut Vec<Case<'a>>,
) -> Result<Open<'a>, CaseFault>
    ensures { IfOk result (λ next. Joins line.entry (so_far cases.old.items (Whole case.entry))
        (so_far cases.new.items next)) }
{
    match line {
        Line::Name(name) => match cases.push(case) {
            Ok(()) => Ok(Open::Named(name)),
            Err(_) => Err(CaseFault::OutOfMemory),
        },
        Line::Profile => owned(case),
        Line::Pieces(size) => cut(size, case),
        Line::Does(step) => longer(step, case),
        Line::Form | Line::Group(_) | Line::Rule(_) => Err(CaseFault::OutOfPlace),
    }
}

/// A case that is this project's own, where nothing but its rule was told.
fn owned<'a>(case: Case<'a>) -> Result<Open<'a>, CaseFault>
    ensures { (cases : List CaseValue)
        → IfOk result (λ next. Joins Profile (so_far cases (Whole case.entry)) (so_far cases next)) }
{
    if case.profile || case.pieces.is_some() || !case.steps.is_empty() {
        return Err(CaseFault::OutOfPlace);
    }
    Ok(Open::Whole(Case {
        profile: true,
        ..case
    }))
}

/// A case whose bytes are written so many at a time, where no step was told and no size.
fn cut<'a>(size: u32, case: Case<'a>) -> Result<Open<'a>, CaseFault>
    ensures { (cases : List CaseValue)
        → IfOk result (λ next. Joins (Pieces size) (so_far cases (Whole case.entry)) (so_far cases next)) }
{
    if case.pieces.is_some() || !case.steps.is_empty() {
        return Err(CaseFault::OutOfPlace);
    }
    Ok(Open::Whole(Case {
        pieces: Some(size),
        ..case
    }))
}

/// A case with one step more.
fn longer<'a>(step: Step, mut case: Case<'a>) -> Result<Open<'a>, CaseFault>
    ensures { (cases : List CaseValue)
        → IfOk result (λ next. Joins (Does step) (so_far cases (Whole case.entry)) (so_far cases next)) }
{
    match case.steps.push(step) {
        Ok(()) => Ok(Open::Whole(case)),
        Err(_) => Err(CaseFault::OutOfMemory),
    }
}

/// Ends what is open, at the end of the file.
fn finish<'a>(begun: Open<'a>, cases: &mut Vec<Case<'a>>) -> Result<(), CaseFault>
    ensures { IfOk result (λ _. so_far cases.old.items begun.entry ≡ all_lines cases.new.items) }
{
    match begun {
        Open::Between => Ok(()),
        Open::Whole(case) => match cases.push(case) {
            Ok(()) => Ok(()),
            Err(_) => Err(CaseFault::OutOfMemory),
        },
        Open::Start | Open::Named(_) | Open::Grouped(_, _) => Err(CaseFault::OutOfPlace),
    }
}
