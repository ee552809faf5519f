//! What the cases of a file are about.

use crate::{checks, cores, layouts};
use sr_case_files::{Case, CaseFile, Tally, cases_in};
use sr_case_reports::{tell_edit, tell_names};
use sr_case_trees::{Fragment, tell_fragment, tell_limits, tell_tokens};
use sr_case_values::tell_call;
use sr_value::NoMemory;
use std::alloc::Global;

/// What the cases of a file are about.
#[derive(Clone, Copy)]
pub enum Subject {
    Tokens,
    Limits,
    Layouts,
    Expressions,
    Types,
    Files,
    Names,
    Pieces,
    Programs,
    Abbreviations,
    Classes,
    Values,
    Processes,
    Code,
    Lists,
}

impl Subject {
    /// What the cases of the file of this name are about.
    pub fn of(name: &str) -> Option<Subject> {
        match name {
            "tokens.txt" => Some(Subject::Tokens),
            "limits.txt" => Some(Subject::Limits),
            "layouts.txt" => Some(Subject::Layouts),
            "expressions.txt" => Some(Subject::Expressions),
            "types.txt" => Some(Subject::Types),
            "files.txt" => Some(Subject::Files),
            "names.txt" => Some(Subject::Names),
            "pieces.txt" => Some(Subject::Pieces),
            "programs.txt" => Some(Subject::Programs),
            "abbreviations.txt" => Some(Subject::Abbreviations),
            "classes.txt" => Some(Subject::Classes),
            "values.txt" => Some(Subject::Values),
            "processes.txt" => Some(Subject::Processes),
            "code.txt" => Some(Subject::Code),
            "lists.txt" => Some(Subject::Lists),
            _ => None,
        }
    }

    /// Whether each line that is wanted is a case of its own.
    fn has_lines(self) -> bool {
        matches!(self, Subject::Files | Subject::Values)
    }

    /// What is told of a case, where the head of the file is `head`.
    fn tell(self, alloc: Global, head: &str, case: &Case) -> Result<String, NoMemory> {
        match self {
            Subject::Tokens => tell_tokens(alloc, case),
            Subject::Limits => tell_limits(alloc, case),
            Subject::Layouts => layouts::tell_layout(alloc, case),
            Subject::Expressions => tell_fragment(alloc, Fragment::Expr, case),
            Subject::Types => tell_fragment(alloc, Fragment::Type, case),
            Subject::Names => tell_names(alloc, case),
            Subject::Pieces => checks::tell_piece(alloc, head, case),
            Subject::Programs => checks::tell(alloc, case),
            Subject::Abbreviations => cores::tell_abbreviation(alloc, case),
            Subject::Classes => cores::tell_classes(alloc, case),
            Subject::Processes => cores::tell_asked(alloc, case),
            Subject::Code => cores::tell_asked(alloc, case),
            Subject::Lists => cores::tell_lists(alloc, case),
            Subject::Files | Subject::Values => Ok(String::new(alloc)),
        }
    }

    /// What is told of a line of a case.
    fn tell_line(self, alloc: Global, case: &Case, line: &str) -> Result<String, NoMemory> {
        match self {
            Subject::Values => tell_call(alloc, line),
            _ => tell_edit(alloc, case, line),
        }
    }
}

/// Takes a case in, or each line of it where that is a case of its own.
fn note(
    alloc: Global,
    subject: Subject,
    head: &str,
    case: &Case,
    tally: &mut Tally,
) -> Result<(), NoMemory> {
    if subject.has_lines() {
        return note_lines(alloc, subject, case, tally);
    }
    let found = subject.tell(alloc, head, case)?;
    tally.note(case.name.as_str(), case.wanted.as_str(), found.as_str())?;
    Ok(())
}

/// Takes each line of a case in.
fn note_lines(
    alloc: Global,
    subject: Subject,
    case: &Case,
    tally: &mut Tally,
) -> Result<(), NoMemory> {
    for line in case.wanted.lines() {
        let found = subject.tell_line(alloc, case, line)?;
        tally.note(case.name.as_str(), line, found.as_str())?;
    }
    Ok(())
}

/// What is told of the cases in a file with this content.
pub fn report_of(
    alloc: Global,
    subject: Subject,
    name: &str,
    content: &str,
) -> Result<String, NoMemory> {
    let CaseFile { head, cases } = cases_in(alloc, content)?;
    let mut tally = Tally::new(alloc);
    for case in &cases {
        note(alloc, subject, head.as_str(), case, &mut tally)?;
    }
    Ok(tally.report(alloc, name)?)
}
